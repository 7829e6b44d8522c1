//! Slices as arrays.
#![tactic(auto)]

ghost use Rattle.std.specs.Prelude.{◌≡◌, length};

/// Borrows a slice of exactly `N` bytes as an array.
pub fn array_of<const N: usize>(bytes: &[u8]) -> &[u8; N]
    requires { length bytes.now ≡ N }
    ensures { result.now ≡ bytes.now }
{
    bytes.as_array::<N>().unwrap()
}
