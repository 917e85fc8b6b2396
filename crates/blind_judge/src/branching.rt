// The question that a branch asks of two values: docs/infinite-run.md, "Steps".

ghost use Rattle.std.specs.Prelude.{◌≡◌};
ghost use Rattle.std.specs.Option.{option_map};
ghost use Rattle.infinite_heap.specs.Equality.{opposite, plain};
ghost use Rattle.infinite_heap.specs.InfiniteStep.{decide};
ghost use Rattle.infinite_heap.specs.Objects.{size_in};
ghost use Rattle.blind_judge.specs.Decisions.{decision_of};
ghost use Rattle.blind_judge.specs.Objects.{objects_of};

use crate::decisions::{Decision, Looks, below, below_signed, same};
use crate::objects::Object;
use infinite_heap::{Op, Value};

/// Whether a branch of this name is taken, where that is decided, with what the answer looked at.
pub fn decide(objects: &[Object], op: Op, x: Value, y: Value) -> Option<Decision>
    ensures { option_map decision_of result ≡ decide (size_in (objects_of objects.now)) op x y }
{
    match op {
        Op::Beq => same(objects, x, y),
        Op::Bne => opposite(same(objects, x, y)),
        Op::Blt => plain(below_signed(x, y)),
        Op::Bge => opposite(plain(below_signed(x, y))),
        Op::Bltu => plain(below(x, y)),
        Op::Bgeu => opposite(plain(below(x, y))),
        _ => None,
    }
}

fn plain(answer: Option<bool>) -> Option<Decision>
    ensures { option_map decision_of result ≡ plain answer }
{
    match answer {
        Some(answer) => Some(Decision {
            answer,
            looks: Looks::Nothing,
        }),
        None => None,
    }
}

fn opposite(decision: Option<Decision>) -> Option<Decision>
    ensures { option_map decision_of result ≡ opposite (option_map decision_of decision) }
{
    match decision {
        Some(d) => Some(Decision {
            answer: !d.answer,
            looks: d.looks,
        }),
        None => None,
    }
}
