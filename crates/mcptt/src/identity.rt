//! Identities as they are handed in: any number, each sort a type of its own.

/// The MCPTT ID of a user. Users are numbered from 1, those whom the gateway serves from 1 to 64.
#[derive(Clone, Copy, Debug, PartialEq, Eq, PartialOrd, Ord)]
pub struct McpttId {
    pub number: u32,
}

/// The MCPTT client ID of a radio, which is radio 1 to 4 of its user.
#[derive(Clone, Copy, Debug, PartialEq, Eq, PartialOrd, Ord)]
pub struct ClientId {
    pub number: u32,
}

/// The MCPTT group ID of a talk group. Groups are numbered from 1.
#[derive(Clone, Copy, Debug, PartialEq, Eq, PartialOrd, Ord)]
pub struct GroupId {
    pub number: u32,
}
