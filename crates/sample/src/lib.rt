// The two kinds of samples, and what a depth fixes: 8 bits are a u8, 10 bits stand at the top of a u16.
// What the codec does at both depths is generic over this trait: each kind of samples gets its own code, which the compiler makes part
// of that depth's loops.

#![tactic(auto)]

ghost use Rattle.std.specs.Prelude.{◌≡◌, Bool, true, false, ℕ, ℤ, List, map, pos};
ghost use Rattle.sample.specs.Depth.{Depth, eight, ten, is_ten};
ghost use Rattle.sample.specs.Numbers.{lane_of, sample_of};
ghost use Rattle.sample.specs.Laws.{DepthNumbers, eight_numbers, ten_numbers, same_list};

pub trait Sample: Copy + Default {
    ghost depth: { Depth };

    // A sample as a number, and a list of samples as the definitions see it.
    ghost number: { Self → ℕ };

    ghost samples: { List Self → List ℕ };

    ghost ROW_ROUND: { ℤ };

    ghost ROW_SHIFT: { ℕ };

    ghost COL_ROUND: { ℤ };

    ghost COL_CORR: { ℤ };

    ghost COL_SHIFT: { ℕ };

    ghost DEQUANT_SHIFT: { ℕ };

    ghost COLUMN_SHIFT: { ℕ };

    ghost MIDDLE: { ℤ };

    ghost FILLS_FLAT: { Bool };

    // The rounding and the shift of the inverse row pass.
    const ROW_ROUND: i32;

    const ROW_SHIFT: u32;
    // The rounding of the sums and of the differences of the inverse column pass, and its shift.
    const COL_ROUND: i16;

    const COL_CORR: i16;

    const COL_SHIFT: u32;
    // How far a dequantised product is shifted.
    const DEQUANT_SHIFT: u32;
    // The shift of the forward column pass.
    const COLUMN_SHIFT: u32;
    // The level of a plane at place 0 or 3.
    const MIDDLE: i16;
    // Whether a block without AC symbols is filled with one sample.
    const FILLS_FLAT: bool;

    // The lane of a sample.
    fn lane(self) -> i16
        ensures { result ≡ lane_of depth (number self) };

    // The sample nearest to a number of the inverse transform.
    fn from_number(z: i16) -> Self
        ensures { number result ≡ sample_of (is_ten depth) z };

    // What each kind of samples must show: its constants are those of its depth.
    ghost numbers: { DepthNumbers depth ROW_ROUND ROW_SHIFT COL_ROUND COL_CORR COL_SHIFT DEQUANT_SHIFT COLUMN_SHIFT MIDDLE FILLS_FLAT };

    ghost lists: { (xs : List Self) → samples xs ≡ map number xs };
}

impl Sample for u8 {
    ghost depth = { eight };

    ghost number = { λ x. x };

    ghost samples = { λ xs. xs };

    ghost ROW_ROUND = { pos 1024 };

    ghost ROW_SHIFT = { 11 };

    ghost COL_ROUND = { pos 32 };

    ghost COL_CORR = { pos 31 };

    ghost COL_SHIFT = { 6 };

    ghost DEQUANT_SHIFT = { 4 };

    ghost COLUMN_SHIFT = { 3 };

    ghost MIDDLE = { pos 128 };

    ghost FILLS_FLAT = { true };

    const ROW_ROUND: i32 = 1024;

    const ROW_SHIFT: u32 = 11;

    const COL_ROUND: i16 = 32;

    const COL_CORR: i16 = 31;

    const COL_SHIFT: u32 = 6;

    const DEQUANT_SHIFT: u32 = 4;

    const COLUMN_SHIFT: u32 = 3;

    const MIDDLE: i16 = 128;

    const FILLS_FLAT: bool = true;

    fn lane(self) -> i16 {
        i16::from(self)
    }

    // What is below 0 is made 0 first: so the compiler clamps sixteen samples by one instruction.
    fn from_number(z: i16) -> u8 {
        scalar::packus1(scalar::max1(z, 0))
    }

    ghost numbers = { eight_numbers };

    ghost lists = { same_list };
}

impl Sample for u16 {
    ghost depth = { ten };

    ghost number = { λ x. x };

    ghost samples = { λ xs. xs };

    ghost ROW_ROUND = { pos 2048 };

    ghost ROW_SHIFT = { 12 };

    ghost COL_ROUND = { pos 16 };

    ghost COL_CORR = { pos 15 };

    ghost COL_SHIFT = { 5 };

    ghost DEQUANT_SHIFT = { 2 };

    ghost COLUMN_SHIFT = { 1 };

    ghost MIDDLE = { pos 512 };

    ghost FILLS_FLAT = { false };

    const ROW_ROUND: i32 = 2048;

    const ROW_SHIFT: u32 = 12;

    const COL_ROUND: i16 = 16;

    const COL_CORR: i16 = 15;

    const COL_SHIFT: u32 = 5;

    const DEQUANT_SHIFT: u32 = 2;

    const COLUMN_SHIFT: u32 = 1;

    const MIDDLE: i16 = 512;

    const FILLS_FLAT: bool = false;

    fn lane(self) -> i16 {
        (self >> 6) as i16
    }

    #[tactic(auto, using(crate::proofs::Clamps::clamped_ten))]
    fn from_number(z: i16) -> u16 {
        z.clamp(0, 1023) as u16 * 64
    }

    ghost numbers = { ten_numbers };

    ghost lists = { same_list };
}
