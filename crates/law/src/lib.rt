// The rules of every call once textures join, the ledger of what owes a clear, and the law over runs of calls.
#![tactic(auto)]
