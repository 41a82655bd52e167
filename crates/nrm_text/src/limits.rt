//! The limit of names, which definitions and code name.

/// Bytes of a name of a leg or a product: a flight or a train with its stations or its class.
pub const MOST_NAME_BYTES: usize = 12;
