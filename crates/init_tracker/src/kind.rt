// What an action means for the memory that it touches: it fills it, or it needs it filled.

#[derive(Clone, Copy, Debug, PartialEq, Eq)]
pub enum MemoryInitKind {
    ImplicitlyInitialized,
    NeedsInitializedMemory,
}
