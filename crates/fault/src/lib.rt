// Why a call is declined: one case for each cause, the part of the planner that declines, and what the fault names.
// A case becomes its number by `as`, the one form there is for a discriminant.
#![tactic(auto)]

ghost use Rattle.std.specs.Prelude.{◌≡◌};
ghost use Rattle.fault.specs.Parts.{fault_of};

mod call_kind;
mod clear_error;
mod refusal;
mod unmade;

pub use call_kind::CallKind;
pub use clear_error::{ClearError, InvalidOrDestroyedResourceError};
pub use refusal::{Part, Refusal};
pub use unmade::Unmade;

// The number that stands for no resource, by the rules of what a caller is told, in place of an Option.
pub const NO_RESOURCE: u8 = 255;

// The number that stands for no step, alike.
pub const NO_PLACE: u8 = 64;

// What a declined call answers: the cause, the part that declines, the resource and the place of the step concerned.
#[derive(Clone, Copy, Debug, PartialEq, Eq)]
pub struct Fault {
    pub refusal: Refusal,
    pub part: Part,
    pub resource: u8,
    pub place: u8,
}

impl Fault {
    // The fault of a call: some causes concern no resource and no step, and name none.
    pub fn new(call: CallKind, refusal: Refusal, resource: u8, place: u8) -> Fault
        ensures { result ≡ fault_of call refusal resource place }
    {
        let part = refusal.part(call);
        if refusal.names_nothing() {
            return Fault {
                refusal,
                part,
                resource: NO_RESOURCE,
                place: NO_PLACE,
            };
        }
        Fault {
            refusal,
            part,
            resource,
            place,
        }
    }

    // The fault of a call that no resource and no step is named for.
    pub fn of_call(call: CallKind, refusal: Refusal) -> Fault
        ensures { result ≡ fault_of call refusal 255 64 }
    {
        Fault::new(call, refusal, NO_RESOURCE, NO_PLACE)
    }
}
