// Half-words and words in the lent RAM, big-endian.
#![tactic(auto)]

ghost use Rattle.std.specs.Prelude.{◌+◌, ◌<◌, ◌≡◌, length};
ghost use Rattle.ram.specs.Ram.{load_half, load_word, store_half, store_word};

// The half-word at `a`.
#[tactic(auto, unfolding(crate::specs::Ram::load_half))]
pub fn load_half(ram: &[u8], a: usize) -> u16
    requires { a + 1 < length ram.now }
    ensures { result ≡ load_half ram.now a }
{
    u16::from_be_bytes([ram[a], ram[a + 1]])
}

// Stores the half-word `v` at `a`.
#[tactic(auto, unfolding(crate::specs::Ram::store_half))]
pub fn store_half(ram: &mut [u8], a: usize, v: u16)
    requires { a + 1 < length ram.old }
    ensures { ram.new ≡ store_half ram.old a v }
{
    let [high, low] = v.to_be_bytes();
    ram[a] = high;
    ram[a + 1] = low;
}

// The word at `a`. Its four bytes stand side by side, so one load and a byte swap serve.
#[tactic(auto, unfolding(crate::specs::Ram::load_half, crate::specs::Ram::load_word))]
pub fn load_word(ram: &[u8], a: usize) -> u32
    requires { a + 3 < length ram.now }
    ensures { result ≡ load_word ram.now a }
{
    u32::from_be_bytes([ram[a], ram[a + 1], ram[a + 2], ram[a + 3]])
}

// Stores the word `v` at `a`.
#[tactic(auto, unfolding(crate::specs::Ram::store_word))]
pub fn store_word(ram: &mut [u8], a: usize, v: u32)
    requires { a + 3 < length ram.old }
    ensures { ram.new ≡ store_word ram.old a v }
{
    store_half(ram, a, (v / 65536) as u16);
    store_half(ram, a + 2, (v % 65536) as u16);
}
