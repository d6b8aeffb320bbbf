//! The addresses of bodies.
ghost use Rattle.std.specs.Prelude.{◌≡◌, ◌≤◌, ◌<◌, ◌+◌, ◌^◌, ◌↔◌, ℕ, IsTrue, length};
ghost use Rattle.hera_code.specs.declared.instrs.Code.{Code as PlainCode};
ghost use Rattle.hera_typed.specs.Effects.{home};
ghost use Rattle.hera_verify.specs.Slots.{greater, start_at, IsReach};

use hera_code::Code;

/// The addresses of a body: from one up to before another, or to the end where it is the last body.
#[derive(Clone, Copy)]
pub(crate) struct Reach {
    pub from: u32,
    pub to: Option<u32>,
}

/// Where the body of a number begins.
fn start_at(code: &Code, k: usize) -> Option<u32>
    ensures { result ≡ start_at code.now.bodies k }
{
    match code.bodies.get(k) {
        Some(body) => Some(body.at),
        None => None,
    }
}

/// The greater of two addresses.
fn greater(a: u32, b: u32) -> u32
    ensures { result ≡ greater a b }
{
    if a < b { b } else { a }
}

/// The addresses of main.
pub(crate) fn first_reach(code: &Code) -> Reach
    ensures { IsReach code.now 0 result }
{
    Reach {
        from: 0,
        to: start_at(code, 1),
    }
}

impl Reach {
    /// The addresses of the body behind body k, whose these are.
    pub(crate) fn next(self, code: &Code, k: usize) -> Reach
        requires own { IsReach code.now k self }
        requires more { k + 1 < length code.now.bodies }
        requires small { k + 2 < 2 ^ 64 }
        ensures { IsReach code.now (k + 1) result }
    {
        match self.to {
            None => self,
            Some(to) => Reach {
                from: greater(self.from, to),
                to: start_at(code, k + 2),
            },
        }
    }

    /// Whether the address is one of these.
    pub(crate) fn has(self, at: usize) -> bool
        ensures { (code : PlainCode) → (k : ℕ) → k < length code.bodies → IsReach code k self → IsTrue result ↔ (home code at ≡ k) }
    {
        self.from as usize <= at
            && match self.to {
                None => true,
                Some(to) => at < to as usize,
            }
    }
}
