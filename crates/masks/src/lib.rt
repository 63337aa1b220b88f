// The masks of four groups of sixteen leaves that stand side by side.
#![tactic(auto)]

ghost use Rattle.std.specs.Prelude.{◌≡◌, ◌≤◌, ◌<◌};
ghost use Rattle.masks.specs.Mask.{mask_of, MasksOf, ones_of, word_of};
ghost use Rattle.masks.specs.Span.{in_span};

// A mask for each group, from the left; leaf 0 in the top bit.
#[derive(Clone, Copy)]
pub struct Masks {
    pub groups: [u16; 4],
}

// The mask of the columns from `first` up to but not including `past`, column 0 in the top bit.
fn wide_mask(first: u32, past: u32) -> u64
    requires ordered { first < past }
    requires limited { past ≤ 64 }
    ensures { result ≡ mask_of (in_span first past) 64 }
{
    let all = u64::MAX;
    (all >> first) - (all >> (past - 1) >> 1)
}

impl Masks {
    // The masks of the columns from `first` up to but not including `past`.
    pub fn of_span(first: u32, past: u32) -> Masks
        requires ordered { first < past }
        requires limited { past ≤ 64 }
        ensures { MasksOf (in_span first past) result }
    {
        let w = wide_mask(first, past);
        Masks {
            groups: [
                (w >> 48) as u16,
                (w >> 32 & 0xffff) as u16,
                (w >> 16 & 0xffff) as u16,
                (w & 0xffff) as u16,
            ],
        }
    }

    // How many leaves the masks enable: the ones of each, added.
    pub fn ones(self) -> u32
        ensures { result ≡ ones_of self.groups }
    {
        self.groups.iter().map(|group| group.count_ones()).sum()
    }

    // The four side by side, the first in the top bits.
    pub fn word(self) -> u64
        ensures { result ≡ word_of self.groups }
    {
        let [one, two, three, four] = self.groups;
        u64::from(one) << 48 | u64::from(two) << 32 | u64::from(three) << 16 | u64::from(four)
    }
}
