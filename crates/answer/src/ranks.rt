// Ranks from the table of an answer that was read.
ghost use Rattle.std.specs.Prelude.{◌≡◌, ◌+◌, ◌*◌, ◌≤◌};
ghost use Rattle.clauses.specs.Numbering.{rank_below};
ghost use Rattle.answer_lines.specs.Marks.{assigned};
ghost use Rattle.answer.specs.PaddedRanks.{padded_ranks};

// "The rank of f is the sum of 2^b over its true bits": bit b of symbol f stands at f·k + b; "one not named counts as 0".
fn rank_of(table: &[Option<bool>; 64], bits: usize, f: usize) -> u8
    requires { (bits ≤ 4) × (f * bits + bits ≤ 64) }
    ensures { result ≡ rank_below bits (assigned table.now) f bits }
{
    let mut rank = 0;
    for b in 0..bits {
        if table[f * bits + b].unwrap_or(false) {
            rank += 1 << b;
        }
    }
    rank
}

// A rank for each of the symbols, and 0 behind them.
pub fn ranks_of(table: &[Option<bool>; 64], symbols: usize, bits: usize) -> [u8; 16]
    requires { (symbols ≤ 16) × (bits ≤ 4) × (symbols * bits ≤ 64) }
    ensures { result ≡ padded_ranks symbols bits (assigned table.now) }
{
    let mut ranks = [0; 16];
    for f in 0..symbols {
        ranks[f] = rank_of(table, bits, f);
    }
    ranks
}
