// The four operations, what each does to a word, and what two become where they merge: document 01, "Operations".
#![tactic(auto)]

ghost use Rattle.std.specs.Prelude.{◌≡◌};
ghost use Rattle.operation.specs.Operation.{sum, applied, merged, operation_of, words_of, operands_fit};

#[derive(Clone, Copy, Debug, PartialEq, Eq)]
pub enum Operation {
    Load,
    Swap(u64),
    Add(u64),
    Mask(u64, u64),
}

// An operation as a request record gives it: the code is a number, as in the record and in the machine's words.
#[derive(Clone, Copy, Debug, PartialEq, Eq)]
pub struct Words {
    pub code: u64,
    pub first: u64,
    pub second: u64,
}

// The operation of a code and its operands.
impl From<Words> for Operation {
    ghost from_gives = { λ w f. f ≡ operation_of w.code w.first w.second };

    #[tactic(auto, unfolding(crate::specs::Operation::operation_of))]
    fn from(w: Words) -> Operation {
        match w.code {
            0 => Operation::Load,
            1 => Operation::Swap(w.first),
            2 => Operation::Add(w.first),
            _ => Operation::Mask(w.first, w.second),
        }
    }
}

// The code of an operation and its operands.
impl From<Operation> for Words {
    ghost from_gives = { λ f w. w ≡ words_of f };

    #[tactic(auto, unfolding(crate::specs::Operation::code_of, crate::specs::Operation::first_operand, crate::specs::Operation::second_operand))]
    fn from(f: Operation) -> Words {
        let (code, first, second) = match f {
            Operation::Load => (0, 0, 0),
            Operation::Swap(v) => (1, v, 0),
            Operation::Add(a) => (2, a, 0),
            Operation::Mask(a, b) => (3, a, b),
        };
        Words {
            code,
            first,
            second,
        }
    }
}

// The add of every operation, in application to a word and in merging.
#[tactic(auto, unfolding(crate::specs::Operation::sum, crate::specs::Operation::cut))]
fn plus(x: u64, y: u64) -> u64
    ensures { result ≡ sum x y }
{
    x.wrapping_add(y)
}

// f(x).
#[tactic(auto, unfolding(crate::specs::Operation::applied))]
pub fn apply(f: Operation, x: u64) -> u64
    ensures { result ≡ applied f x }
{
    match f {
        Operation::Load => x,
        Operation::Swap(v) => v,
        Operation::Add(a) => plus(x, a),
        Operation::Mask(a, b) => (x & a) ^ b,
    }
}

// f, then g, as one operation where the two merge.
#[tactic(auto, unfolding(crate::specs::Operation::merged))]
pub fn merge(f: Operation, g: Operation) -> Option<Operation>
    ensures { result ≡ merged f g }
{
    match (f, g) {
        (Operation::Load, _) => Some(g),
        (Operation::Swap(v), _) => Some(Operation::Swap(apply(g, v))),
        (_, Operation::Load) => Some(f),
        (_, Operation::Swap(_)) => Some(g),
        (Operation::Add(a), Operation::Add(b)) => Some(Operation::Add(plus(a, b))),
        (Operation::Mask(a, b), Operation::Mask(c, d)) => {
            Some(Operation::Mask(a & c, (b & c) ^ d))
        }
        (Operation::Add(_), Operation::Mask(_, _)) => None,
        (Operation::Mask(_, _), Operation::Add(_)) => None,
    }
}

// Whether there is such an operation, and each operand that must be zero is. It is asked of any byte, so the code is one.
#[tactic(auto, unfolding(crate::specs::Operation::operands_fit))]
pub fn operands_fit(code: u8, first: u64, second: u64) -> bool
    ensures { result ≡ operands_fit code first second }
{
    match code {
        0 => first == 0 && second == 0,
        1 | 2 => second == 0,
        _ => code == 3,
    }
}
