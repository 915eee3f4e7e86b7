//! How the program is called.
ghost use Rattle.std.specs.Prelude.{◌≡◌};
ghost use Rattle.show_words.specs.Usage.{show_usage_lines};

/// The lines that tell how the program is called.
pub fn show_usage_lines() -> &'static [u8]
    ensures { result.now ≡ show_usage_lines }
{
    b"usage: exec_show plan FILE\n\
usage: exec_show trace FILE [--refused] [--from N] [--to M]\n\
usage: exec_show why FILE\n\
usage: exec_show write FILE\n\
usage: exec_show text FILE\n"
}
