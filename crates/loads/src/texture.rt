// Texture class from clay and sand.
ghost use Rattle.std.specs.Prelude.{◌≡◌, ◌+◌, ◌≤◌};
ghost use Rattle.loads.specs.Texture.{texture_number, texture_of};

// The texture classes 1 to 5.
#[derive(Clone, Copy)]
pub enum Texture {
    Coarse,
    Medium,
    MediumFine,
    Fine,
    VeryFine,
}

impl Texture {
    // The place of a class in a row of the weathering classes.
    pub fn place(self) -> usize
        ensures { (result + 1 ≡ texture_number self) × (result ≤ 4) }
    {
        // its place among the cases, which a match would only write out
        self as usize
    }
}

#[tactic(auto, using(crate::proofs::TextureLaws::very_fine, crate::proofs::TextureLaws::fine, crate::proofs::TextureLaws::medium_fine, crate::proofs::TextureLaws::coarse, crate::proofs::TextureLaws::medium_light, crate::proofs::TextureLaws::medium_heavy))]
pub fn texture_of(clay: u8, sand: u8) -> Texture
    ensures { texture_number result ≡ texture_of clay sand }
{
    match clay {
        60..=255 => Texture::VeryFine,
        35..=59 => Texture::Fine,
        18..=34 => match sand {
            0..=14 => Texture::MediumFine,
            _ => Texture::Medium,
        },
        _ => match sand {
            0..=14 => Texture::MediumFine,
            15..=64 => Texture::Medium,
            _ => Texture::Coarse,
        },
    }
}
