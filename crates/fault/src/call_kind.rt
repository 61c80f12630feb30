// The kinds of calls, for the part of a fault.

#[derive(Clone, Copy, Debug, PartialEq, Eq)]
pub enum CallKind {
    MakeBuffer,
    MakeTexture,
    Destroy,
    Open,
    Close,
    Abandon,
    BufferRead,
    BufferWrite,
    ClearBuffer,
    TextureWrite,
    Announce,
    Settle,
    Withdraw,
    Discard,
    ClearTexture,
    Submit,
    Other,
}
