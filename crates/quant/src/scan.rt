// The zig-zag scan of a block by value, as 64 moves: the form that runs fastest (the end of `fdct_quant_zig` of dct.rs).
ghost use Rattle.std.specs.Prelude.{◌≡◌, ◌<◌, ◌≤◌};
ghost use Rattle.std.proofs.lemmas.List.Edits.{sets};
ghost use Rattle.quant.specs.scan.Scan.{four_of, scan_of};

use sample::Sample;

// Four moves: the elements of n at i0 to i3 go to z from `at` on.
pub fn four(z: &mut [i16; 64], at: usize, n: &[i16; 64], i0: usize, i1: usize, i2: usize, i3: usize)
    requires { (at ≤ 60) × ((i0 < 64) × ((i1 < 64) × ((i2 < 64) × (i3 < 64)))) }
    ensures { z.new ≡ sets z.old at (four_of n.now i0 i1 i2 i3) }
{
    z[at] = n[i0];
    z[at + 1] = n[i1];
    z[at + 2] = n[i2];
    z[at + 3] = n[i3];
}

// The block in scan order. Each depth has its own: so the compiler makes it part of the plane's loop.
pub fn zigzag<S: Sample>(n: [i16; 64]) -> [i16; 64]
    ensures { result ≡ scan_of n }
{
    let mut z = [0i16; 64];
    four(&mut z, 0, &n, 0, 1, 8, 16);
    four(&mut z, 4, &n, 9, 2, 3, 10);
    four(&mut z, 8, &n, 17, 24, 32, 25);
    four(&mut z, 12, &n, 18, 11, 4, 5);
    four(&mut z, 16, &n, 12, 19, 26, 33);
    four(&mut z, 20, &n, 40, 48, 41, 34);
    four(&mut z, 24, &n, 27, 20, 13, 6);
    four(&mut z, 28, &n, 7, 14, 21, 28);
    four(&mut z, 32, &n, 35, 42, 49, 56);
    four(&mut z, 36, &n, 57, 50, 43, 36);
    four(&mut z, 40, &n, 29, 22, 15, 23);
    four(&mut z, 44, &n, 30, 37, 44, 51);
    four(&mut z, 48, &n, 58, 59, 52, 45);
    four(&mut z, 52, &n, 38, 31, 39, 46);
    four(&mut z, 56, &n, 53, 60, 61, 54);
    four(&mut z, 60, &n, 47, 55, 62, 63);
    z
}
