// Counts in lent words: raised, and printed in rows.
use std::io;

fn value(counts: &[u32], k: usize) -> u32 {
    counts.get(k).copied().unwrap_or(0)
}

// Raises count k, if there is one and it is not very high; by at most 65,535.
pub fn raise(counts: &mut [u32], k: usize, by: u32) {
    if let Some(x) = counts.get_mut(k) {
        if *x < 1000000000 {
            *x += by % 65536;
        }
    }
}

// The flag stays: it is what is counted, and each caller would test it.
pub fn raise_if(counts: &mut [u32], k: usize, yes: bool) {
    if yes {
        raise(counts, k, 1);
    }
}

// So many counts from one on, behind the name of their row.
pub fn say_row(rt: &impl Print, counts: &[u32], from: usize, width: usize) -> io::Result<()> {
    print!(rt; ":")?;
    for k in 0..width {
        print!(rt; " {}", value(counts, from.wrapping_add(k)))?;
    }
    println!(rt)
}
