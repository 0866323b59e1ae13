//! Removes spaces and tabs at the ends of a text.
ghost use Rattle.std.specs.Prelude.{◌≡◌};
ghost use Rattle.std.specs.Bool.{OnTrue};
ghost use Rattle.drf_text.specs.Blanks.{is_blank, IsOneFirstLess, IsOneLastLess, without_first_blanks, without_last_blanks, trimmed};

/// Returns the text without its first byte if this is a space or a tab, and else the whole text.
fn drop_first(text: &str) -> &str
    ensures { IsOneFirstLess text.now result.now }
{
    match text.strip_prefix(' ') {
        Some(rest) => rest,
        None => match text.strip_prefix('\t') {
            Some(rest) => rest,
            None => text,
        },
    }
}

/// Returns the text without its last byte if this is a space or a tab, and else the whole text.
fn drop_last(text: &str) -> &str
    ensures { IsOneLastLess text.now result.now }
{
    match text.strip_suffix(' ') {
        Some(rest) => rest,
        None => match text.strip_suffix('\t') {
            Some(rest) => rest,
            None => text,
        },
    }
}

fn trim_start(text: &str) -> &str
    ensures { result.now ≡ without_first_blanks text.now }
{
    let mut rest = text;
    let mut more = drop_first(rest);
    while more.len() < rest.len() {
        rest = more;
        more = drop_first(rest);
    }
    rest
}

fn trim_end(text: &str) -> &str
    ensures { result.now ≡ without_last_blanks text.now }
{
    let mut rest = text;
    let mut more = drop_last(rest);
    while more.len() < rest.len() {
        rest = more;
        more = drop_last(rest);
    }
    rest
}

fn is_blank_byte(byte: u8) -> bool
    ensures { result ≡ is_blank byte }
{
    byte == b' ' || byte == b'\t'
}

/// Returns `true` only if the text is not empty and neither end is a space or a tab.
fn has_bare_ends(text: &str) -> bool
    ensures { OnTrue result (trimmed text.now ≡ text.now) }
{
    let bytes = text.as_bytes();
    if bytes.is_empty() {
        return false;
    }
    if is_blank_byte(bytes[0]) {
        return false;
    }
    !is_blank_byte(bytes[bytes.len() - 1])
}

/// Returns the text without the spaces and tabs at both ends.
pub fn trim(text: &str) -> &str
    ensures { result.now ≡ trimmed text.now }
{
    if has_bare_ends(text) {
        return text;
    }
    trim_end(trim_start(text))
}
