// Images in bytes that a caller lends.
ghost use Rattle.std.specs.Prelude.{◌≡◌, length};

// Writes an image into as many bytes as it has.
#[tactic(auto, using(crate::proofs::Copy::copied))]
pub(crate) fn put<const N: usize>(image: [u8; N], lent: &mut [u8])
    requires { length lent.old ≡ N }
    ensures { lent.new ≡ image.entry }
{
    lent.copy_from_slice(&image);
}
