//! Tables of names.
ghost use Rattle.std.specs.Prelude.{◌≡◌, map};
ghost use Rattle.plan_parts.specs.Named.{named};

/// What a table has for a name: the value of the first row of that name.
pub fn named<A: Copy>(rows: &[(&str, A)], name: &str) -> Option<A>
    ensures { result ≡ named (map (λ row. (row.0.now, row.1)) rows.now) name.now }
{
    'rows: for row in rows {
        if name == row.0 {
            return Some(row.1);
        }
    }
    None
}
