// The line of a state: how many entries the table of kept scores has, the sum of their scores, and the sum of key times score.
ghost use Rattle.std.specs.Prelude.{◌≡◌, ◌*◌, ◌≤◌, length};
ghost use Rattle.layout_rules.specs.Matrix.{matrix_refusal};
ghost use Rattle.test_scores.specs.Sums.{keys_in, scores_in, score_sum, digest, largest_score, largest_product};

use compile_plan::eliminated::eliminate_rows;
use compile_plan::rows::matrix_rows;
use elimination_kept::KeptScores;
use std::io;
use std::io::Write;

// Of the scores, and of key times score.
#[derive(Clone, Copy)]
struct Sums {
    scores: u64,
    digest: u64,
}

// The sums of one entry. A function of its own, since the types of its arguments say how large they are.
fn entry_sums(key: u32, score: u8) -> Sums
    ensures scores_value { (result.scores ≡ score) × (result.digest ≡ key * score) }
    ensures scores_le_largest_score { (result.scores ≤ largest_score) × (result.digest ≤ largest_product) }
{
    Sums {
        scores: score as u64,
        digest: (key as u64) * (score as u64),
    }
}

// The sums of the entries.
fn table_sums(kept: &KeptScores) -> Sums
    ensures scores_value { result.scores ≡ score_sum (scores_in kept.now) (length kept.now) }
    ensures digest_value { result.digest ≡ digest (keys_in kept.now) (scores_in kept.now) (length kept.now) }
{
    let mut sum: u64 = 0;
    let mut digest: u64 = 0;
    for i in 0..kept.count {
        let entry = entry_sums(kept.keys[i], kept.scores[i]);
        sum += entry.scores;
        digest += entry.digest;
    }
    Sums {
        scores: sum,
        digest,
    }
}

fn print_line<W: Write>(output: &mut W, entries: usize, sums: Sums) -> io::Result<()> {
    writeln!(output, "{entries} {} {}", sums.scores, sums.digest)
}

// Prints the line of the state after so many steps from the matrix's rows and answers true, unless elimination ends before.
pub(crate) fn print_state<W: Write>(output: &mut W, matrix: &[u8], steps: usize) -> io::Result<bool>
    requires { matrix_refusal matrix.now ≡ 0 }
{
    let n = layout_matrix::column_count(matrix) as u16;
    let first = matrix_rows(matrix);
    let mut kept = KeptScores::empty();
    let state = eliminate_rows(first, n, steps, &mut kept);
    let made = state.operations;
    if made.count() < steps {
        return Ok(false);
    }
    let sums = table_sums(&kept);
    print_line(output, kept.count, sums)?;
    Ok(true)
}
