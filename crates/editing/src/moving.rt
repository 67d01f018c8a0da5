// Cells of a screen moved along, as `copy_within` moves them.
// They go by way of a block: two copies of the C library's take half as long as the loop that `copy_within` is compiled to.
ghost use Rattle.std.specs.Prelude.{◌≡◌, ◌+◌, ◌-◌, ◌≤◌, length};
ghost use Rattle.std.specs.List.{copy_within};

const BLOCK: usize = 2048;

// Copies cells that fit a block to another place, over others and over themselves.
fn copy_block(cells: &mut [u8], block: &mut [u8; 2048], from: usize, to: usize, dest: usize)
    requires ordered { from ≤ to }
    requires few { to - from ≤ 2048 }
    requires within { to ≤ length cells.old }
    requires room { dest + (to - from) ≤ length cells.old }
    ensures { cells.new ≡ copy_within cells.old from to dest }
{
    let count = to - from;
    block[..count].copy_from_slice(&cells[from..to]);
    cells[dest..dest + count].copy_from_slice(&block[..count]);
}

// Towards the end, from the last block to the first.
#[tactic(auto, using(crate::proofs::Pieces::moved_on))]
fn move_on(cells: &mut [u8], block: &mut [u8; 2048], from: usize, to: usize, dest: usize)
    requires ordered { from ≤ to }
    requires onward { from ≤ dest }
    requires room { dest + (to - from) ≤ length cells.old }
    ensures { cells.new ≡ copy_within cells.old from to dest }
{
    if from < to {
        let start = from.max(to.saturating_sub(BLOCK));
        copy_block(cells, block, start, to, dest + (start - from));
        move_on(cells, block, from, start, dest);
    }
}

// Towards the front, from the first block to the last.
#[tactic(auto, using(crate::proofs::Pieces::moved_back))]
fn move_back(cells: &mut [u8], block: &mut [u8; 2048], from: usize, to: usize, dest: usize)
    requires ordered { from ≤ to }
    requires back { dest ≤ from }
    requires within { to ≤ length cells.old }
    ensures { cells.new ≡ copy_within cells.old from to dest }
{
    if from < to {
        let end = to.min(from + BLOCK);
        copy_block(cells, block, from, end, dest);
        move_back(cells, block, end, to, dest + (end - from));
    }
}

// Moves the cells from one place up to another, so that they begin at `dest`.
pub(crate) fn move_cells(cells: &mut [u8], from: usize, to: usize, dest: usize)
    requires ordered { from ≤ to }
    requires within { to ≤ length cells.old }
    requires room { dest + (to - from) ≤ length cells.old }
    ensures len { length cells.new ≡ length cells.old }
    ensures after { cells.new ≡ copy_within cells.old from to dest }
{
    let mut block = [0; BLOCK];
    if from < dest {
        move_on(cells, &mut block, from, to, dest);
    } else {
        move_back(cells, &mut block, from, to, dest);
    }
}
