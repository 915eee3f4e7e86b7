//! How the program is called.
ghost use Rattle.std.specs.Prelude.{◌≡◌};
ghost use Rattle.exec_words.specs.Usage.{usage_lines};

/// The lines that tell how the program is called.
pub fn usage_lines() -> &'static [u8]
    ensures { result.now ≡ usage_lines }
{
    b"usage: exec_run run PLAN [--workers N] [--window W] [--order fifo|lifo] [--summary]\n\
usage: exec_run gen PLAN N [--workers N] [--window W] [--order fifo|lifo]\n\
usage: exec_run replay FILE\n\
usage: exec_run check FILE\n"
}
