// The cells of a store as bytes, 4 each, lowest first. (Buffer and position stay two, as in `report`.)
ghost use Rattle.std.specs.Prelude.{◌≡◌, ◌*◌, ◌/◌, ◌≤◌, length, take};
ghost use Rattle.report.specs.Appends.{Appends};
ghost use Rattle.operator.specs.Carrying.{cells_in};
ghost use Rattle.operator.specs.File.{cells_bytes};

pub const CELL_BYTES: usize = 4;

// No input holds more cells than this.
pub const SOURCE_CELLS: usize = 16384;

// The cells that the bytes hold, at the start of those lent.
pub fn read(bytes: &[u8], cells: &mut [u32])
    requires { length bytes.now / 4 ≤ length cells.old }
    ensures { take (length bytes.now / 4) cells.new ≡ cells_in bytes.now }
{
    for i in 0..bytes.len() / CELL_BYTES {
        let at = CELL_BYTES * i;
        cells[i] = u32::from_le_bytes([bytes[at], bytes[at + 1], bytes[at + 2], bytes[at + 3]]);
    }
}

// All of these cells, from this position of the buffer on.
pub fn write(cells: &[u32], out: &mut [u8], at: usize) -> usize
    ensures { Appends (length cells.now * 4) out.old at
        (cells_bytes (length cells.now) cells.now) out.new result }
{
    let mut next = at;
    for cell in cells {
        next = report::bytes(out, next, &cell.to_le_bytes());
    }
    next
}
