// A record that is being read.
ghost use Rattle.std.specs.Prelude.{◌+◌, ◌<◌, ◌^◌, length};

use site::Site;

// The site so far, the bytes of its record that are left, and their offset in the lent input.
#[derive(Drop)]
pub struct Reading<'a> {
    pub site: Site,
    pub bytes: &'a [u8],
    pub at: usize,
    ghost fits: { at + length bytes.now < 2 ^ 64 },
}
