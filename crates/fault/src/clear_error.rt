// What a clear command can find wrong, in the words of the crate that this follows, and its way into a refusal.
ghost use Rattle.std.specs.Prelude.{◌≡◌};
ghost use Rattle.fault.specs.Clears.{clear_error_of, refusal_of};
ghost use Rattle.fault.specs.Parts.{fault_of};

use crate::{CallKind, Fault, Refusal};

// A resource that a clear names: there is none of that number, or it is destroyed.
#[derive(Clone, Copy, Debug, PartialEq, Eq)]
pub enum InvalidOrDestroyedResourceError {
    InvalidResource,
    DestroyedResource,
}

#[derive(Clone, Copy, Debug, PartialEq, Eq)]
pub enum ClearError {
    DestroyedResource,
    NoValidTextureClearMode,
    UnalignedFillSize(u64),
    UnalignedBufferOffset(u64),
    OffsetPlusSizeExceeds64BitBounds {
        start_offset: u64,
        requested_size: u64,
    },
    BufferOverrun {
        start_offset: u64,
        end_offset: u64,
        buffer_size: u64,
    },
    MissingBufferUsage,
    MissingTextureAspect,
    InvalidTextureLevelRange,
    InvalidTextureLayerRange,
    InvalidResource,
}

impl From<InvalidOrDestroyedResourceError> for ClearError {
    ghost from_gives = { λ value r. r ≡ clear_error_of value };

    fn from(value: InvalidOrDestroyedResourceError) -> ClearError {
        match value {
            InvalidOrDestroyedResourceError::InvalidResource => ClearError::InvalidResource,
            InvalidOrDestroyedResourceError::DestroyedResource => ClearError::DestroyedResource,
        }
    }
}

// The cause that a clear is declined for.
impl From<ClearError> for Refusal {
    ghost from_gives = { λ error cause. cause ≡ refusal_of error };

    fn from(error: ClearError) -> Refusal {
        match error {
            ClearError::InvalidResource => Refusal::Unknown,
            ClearError::DestroyedResource => Refusal::Destroyed,
            ClearError::MissingBufferUsage => Refusal::NoCopyUsage,
            ClearError::UnalignedBufferOffset(_) => Refusal::UnalignedStart,
            ClearError::UnalignedFillSize(_) => Refusal::UnalignedEnd,
            ClearError::OffsetPlusSizeExceeds64BitBounds { .. } => Refusal::AddressOverflow,
            ClearError::BufferOverrun { .. } => Refusal::PastBuffer,
            ClearError::MissingTextureAspect => Refusal::MissingAspect,
            ClearError::InvalidTextureLevelRange => Refusal::PastMips,
            ClearError::InvalidTextureLayerRange => Refusal::PastLayers,
            ClearError::NoValidTextureClearMode => Refusal::NoClearMode,
        }
    }
}

impl ClearError {
    // The fault of the clear that found it.
    pub fn fault(self, call: CallKind, resource: u8, place: u8) -> Fault
        ensures { result ≡ fault_of call (refusal_of self) resource place }
    {
        Fault::new(call, Refusal::from(self), resource, place)
    }
}
