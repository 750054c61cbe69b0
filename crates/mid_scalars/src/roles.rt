// What temporaries are used for.

/// What a temporary is used for, so far as it was seen: nothing; as the address of one local, which alone it takes and where it loads and
/// stores; or anything else.
#[derive(Clone, Copy, Debug, PartialEq, Eq)]
pub(crate) enum Role {
    Open,
    AddressOf(u32),
    Spoilt,
}
