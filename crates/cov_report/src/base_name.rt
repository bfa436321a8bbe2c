ghost use Rattle.std.specs.Prelude.{◌≡◌};
ghost use Rattle.report_text.specs.FileNames.{base_name};

/// What follows the last `/`.
pub(crate) fn base_name(name: &[u8]) -> &[u8]
    ensures { result.now ≡ base_name name.now }
{
    let mut from = name.len();
    'bytes: while from > 0 {
        if name[from - 1] == b'/' {
            return &name[from..];
        }
        from -= 1;
    }
    name
}
