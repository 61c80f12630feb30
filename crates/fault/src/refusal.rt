// The causes for which a call is declined, each with its number and its part.
ghost use Rattle.std.specs.Prelude.{◌≡◌};
ghost use Rattle.fault.specs.Numbers.{number_of, part_number};
ghost use Rattle.fault.specs.Parts.{part_of, names_nothing, range_part, destroyed_part};

use crate::CallKind;

#[derive(Clone, Copy, Debug, PartialEq, Eq)]
pub enum Refusal {
    // A number or a call is unknown, or the number is of the other kind of resource.
    Unknown = 1,
    // The list's state does not allow the call.
    WrongState = 2,
    // The list is in debt.
    InDebt = 3,
    // The resource is destroyed.
    Destroyed = 4,
    // The buffer has no copy usage.
    NoCopyUsage = 5,
    // A start or an offset is not a multiple of 4.
    UnalignedStart = 6,
    // The size of a clear or the end of a write is not a multiple of 4.
    UnalignedEnd = 7,
    // An offset plus a size passes 64 bits.
    AddressOverflow = 8,
    // An end is past the buffer's size.
    PastBuffer = 9,
    // A start is above its end.
    Backward = 10,
    // The texture lacks the aspect, or there is no such aspect.
    MissingAspect = 11,
    // Mips past the texture.
    PastMips = 12,
    // Layers past the texture.
    PastLayers = 13,
    // No write or settled read of the list covers the surface since its last discard there.
    DiscardNotCovered = 14,
    // The texture can't be cleared.
    NoClearMode = 15,
    // The list holds 64 steps already.
    ListFull = 16,
    // Ranges or pieces past their places.
    PlacesFull = 17,
    // The allowance is under the commands needed.
    AllowanceShort = 18,
    // No number is free.
    NoNumberFree = 19,
    // A description, a pitch or an extent is not as it must be.
    BadDescription = 20,
    // The mark or the list is not the debt's, or the list is not in debt.
    NotThisDebt = 21,
}

// The part of the planner that declines.
#[derive(Clone, Copy, Debug, PartialEq, Eq)]
pub enum Part {
    RangeList = 1,
    Clear = 2,
    List = 3,
    Submission = 4,
    Making = 5,
}

// The part's number, 1 to 5.
impl From<Part> for u8 {
    ghost from_gives = { λ part number. number ≡ part_number part };

    fn from(part: Part) -> u8 {
        part as u8
    }
}

// The cause's number, 1 to 21.
impl From<Refusal> for u8 {
    ghost from_gives = { λ refusal number. number ≡ number_of refusal };

    fn from(refusal: Refusal) -> u8 {
        refusal as u8
    }
}

impl Refusal {
    // The part that declines the call for this cause.
    pub fn part(self, call: CallKind) -> Part
        ensures { result ≡ part_of call self }
    {
        match self {
            Refusal::PlacesFull => Part::RangeList,
            Refusal::NoClearMode => Part::Clear,
            Refusal::NoCopyUsage
            | Refusal::UnalignedStart
            | Refusal::UnalignedEnd
            | Refusal::AddressOverflow
            | Refusal::PastBuffer
            | Refusal::Backward
            | Refusal::MissingAspect
            | Refusal::PastMips
            | Refusal::PastLayers => range_part(call),
            Refusal::Destroyed => destroyed_part(call),
            Refusal::AllowanceShort => Part::Submission,
            Refusal::NoNumberFree | Refusal::BadDescription => Part::Making,
            Refusal::Unknown
            | Refusal::WrongState
            | Refusal::InDebt
            | Refusal::DiscardNotCovered
            | Refusal::ListFull
            | Refusal::NotThisDebt => Part::List,
        }
    }

    // Whether the cause concerns no resource and no step.
    pub fn names_nothing(self) -> bool
        ensures { result ≡ names_nothing self }
    {
        matches!(
            self,
            Refusal::Unknown
                | Refusal::WrongState
                | Refusal::InDebt
                | Refusal::AllowanceShort
                | Refusal::NoNumberFree
                | Refusal::BadDescription
                | Refusal::NotThisDebt
        )
    }
}

// A bad range or a missing usage is the clear's own where a clear names it, and the list's elsewhere.
fn range_part(call: CallKind) -> Part
    ensures { result ≡ range_part call }
{
    match call {
        CallKind::ClearBuffer | CallKind::ClearTexture => Part::Clear,
        _ => Part::List,
    }
}

// A destroyed resource is submission's own refusal there, and the list's elsewhere.
fn destroyed_part(call: CallKind) -> Part
    ensures { result ≡ destroyed_part call }
{
    match call {
        CallKind::Submit => Part::Submission,
        _ => Part::List,
    }
}
