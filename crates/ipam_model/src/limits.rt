/// The lost race that ends a request.
pub const LOST_RACES_MAX: u32 = 64;

/// The confirmed claim that ends a request.
pub const CLAIMS_MAX: u32 = 64;

/// How many slots a cluster has.
pub const SLOTS: usize = 64;
