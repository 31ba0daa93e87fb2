// Of the words of one star, which stand side by side, the first stays.
ghost use Rattle.std.specs.Prelude.{◌≡◌, ◌≤◌, length, take};
ghost use Rattle.duplicates.specs.Words.{firsts_after};

// The words that stay move down to the front; the answer is their count. No star has home and number 0 and 0.
pub fn drop_repeated(waiting: &mut [u64], end: usize) -> usize
    requires { end ≤ length waiting.old }
    ensures upper_bound { result ≤ end }
    ensures waiting_after { take result waiting.new ≡ firsts_after 0 (take end waiting.old) }
{
    let mut last: u64 = 0;
    let mut kept = 0;
    for i in 0..end {
        let word = waiting[i];
        if word / 65536 != last {
            waiting[kept] = word;
            kept += 1;
            last = word / 65536;
        }
    }
    kept
}
