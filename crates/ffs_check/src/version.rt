//! The version of the program.

/// The version, and the first digits of the digest of the sources that the program was built from.
/// `tools/renew_dist` writes this line.
pub const VERSION: &str = "1.32.0 (sources 1a82a197592a)";
