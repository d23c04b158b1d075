// The first message that waits, in the order of the table.
ghost use Rattle.std.specs.Prelude.{◌≡◌, ◌*◌, ◌≤◌, length};
ghost use Rattle.words.specs.Words.{first_in};

use words::Found;

// Nodes, the `rows` rows of each, and bits, left at the first bit that is set.
pub(crate) fn search(nodes: usize, rows: usize, waiting: &[u32]) -> Option<Found>
    requires { (length waiting.now ≡ nodes * rows) × (length waiting.now ≤ 524288) }
    ensures { result ≡ first_in waiting.now }
{
    let mut found = None;
    'table: for node in 0..nodes {
        for row in 0..rows {
            let at = node * rows + row;
            let word = waiting[at];
            if word == 0 {
                continue;
            }
            for bit in 0..32 {
                if bits::has(word, bit) {
                    found = Some(Found { word: at, bit });
                    break 'table;
                }
            }
        }
    }
    found
}
