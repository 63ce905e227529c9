// The heavier of two rows, of equal weights the one of the lesser rank, then the one before in the table.
ghost use Rattle.passes.specs.Best.{Sees};

// The heaviest row so far; it weighs nothing before there is one.
// Kept: weight 0 stands for no row, as no row weighs nothing, so that a pass has one comparison a row and no case of its own for the first.
#[derive(Clone, Copy)]
pub struct Best {
    pub weight: u32,
    pub rank: u32,
    pub row: usize,
}

impl Best {
    pub const NONE: Best = Best {
        weight: 0,
        rank: 0,
        row: 0,
    };
}

// A row before the best one in the table is compared.
pub fn see(best: Best, next: Best) -> Best
    ensures { Sees best next.weight next.rank next.row result }
{
    // Kept: the greater weight but the lesser rank wins, so a derived order would turn one of them round.
    if next.weight < best.weight {
        return best;
    }
    if next.weight == best.weight {
        if best.rank < next.rank {
            return best;
        }
    }
    next
}
