// Single answers: written where the call was carried out, else left as they are.
ghost use Rattle.std.specs.Prelude.{◌≡◌};
ghost use Rattle.complex.specs.Arithmetic.{complex_of};
ghost use Rattle.refusals.specs.Refusals as refusals;
ghost use Rattle.entries.specs.Answers as spec;

use complex::Complex;
use equivalents::rei::ReiEquivalent;
use equivalents::ward::WardSummary;
use refusals::Refusal;

// A single value.
#[tactic(auto, unfolding(crate::specs::Answers::given_after))]
pub fn give<T: Copy>(answer: Result<T, Refusal>, out: &mut T)
    ensures { out.new ≡ spec.given_after answer out.old }
{
    if let Ok(x) = answer {
        *out = x;
    }
}

// A count of buses, x, of a call with this answer.
#[tactic(auto, using(dc_flow::proofs::Accepted::numbered), unfolding(crate::specs::Answers::answer_after))]
pub fn give_count(out: &mut usize, x: usize, answer: Result<(), Refusal>)
    ensures { out.new ≡ spec.answer_after (refusals.number_of answer) x out.old }
{
    if let Ok(()) = answer {
        *out = x;
    }
}

// An impedance, in per unit.
#[tactic(auto, unfolding(crate::specs::Answers::given_after))]
pub fn give_value(answer: Result<Complex, Refusal>, re: &mut f64, im: &mut f64)
    ensures { complex_of re.new im.new
        ≡ spec.value_after answer (complex_of re.old im.old) }
{
    if let Ok(z) = answer {
        *re = z.re;
        *im = z.im;
    }
}

// A Ward study's sizes, in buses, its ratio, without unit, and how many rows its solves reduced.
#[tactic(auto, unfolding(crate::specs::Answers::given_after))]
pub fn give_summary(
    answer: Result<WardSummary, Refusal>,
    reduced: &mut usize,
    equivalent: &mut usize,
    ratio: &mut f64,
    rows: &mut usize,
)
    ensures { spec.summary_of reduced.new equivalent.new ratio.new rows.new
        ≡ spec.summary_after answer
        (spec.summary_of reduced.old equivalent.old ratio.old rows.old) }
{
    if let Ok(s) = answer {
        *reduced = s.n_buses_reduced;
        *equivalent = s.n_buses_equivalent;
        *ratio = s.reduction_ratio;
        *rows = s.rows_reduced;
    }
}

// An REI equivalent's bus, its voltage in per unit, P in MW and Q in MVAr, and how many ties there are.
#[tactic(auto, unfolding(crate::specs::Answers::given_after))]
pub fn give_equivalent(
    answer: Result<ReiEquivalent, Refusal>,
    bus: &mut usize,
    voltage: &mut f64,
    p: &mut f64,
    q: &mut f64,
    ties: &mut usize,
)
    ensures { spec.rei_of bus.new voltage.new p.new q.new ties.new
        ≡ spec.equivalent_after answer
        (spec.rei_of bus.old voltage.old p.old q.old ties.old) }
{
    if let Ok(e) = answer {
        *bus = e.rei_bus_id;
        *voltage = e.rei_voltage_pu;
        *p = e.rei_p_mw;
        *q = e.rei_q_mvar;
        *ties = e.n_ties;
    }
}
