// The limits that document 01's questions name.
pub const PRESET_MAX: usize = 24;

pub const SHIFT_MAX: u32 = 15;

pub const PLACE_MAX: usize = 3;

pub const PLANES_MAX: usize = 4;

pub const STRIDE_MAX: usize = 7680;
// Rows of a plane, and of a slice.
pub const ROWS: usize = 16;
// Bytes a block that the size call names.
pub const DC_BLOCK_BYTES: usize = 4;

pub const AC_BLOCK_BYTES: usize = 197;
// A column of a plane has two blocks.
pub const DC_COLUMN_BYTES: usize = 2 * DC_BLOCK_BYTES;

pub const AC_COLUMN_BYTES: usize = 2 * AC_BLOCK_BYTES;

pub const START_MAX: usize = 16777215;
// Lengths of streams that are read.
pub const DC_READ_MAX: usize = 245760;

pub const AC_READ_MAX: usize = 430080;

pub const SIDE_MIN: usize = 16;

pub const WIDTH_MAX: usize = 7680;

pub const HEIGHT_MAX: usize = 4320;
// Slices of a frame: 16 rows each.
pub const SLICES_MAX: usize = 270;
