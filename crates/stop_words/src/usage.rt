//! The forms of commands and of lines, as a person writes them.

static COMMANDS: [&str; 7] = [
    "build", "lookup", "explain", "gen", "publish", "check", "census",
];

static KEYWORDS: [&str; 13] = [
    "epoch",
    "type",
    "pieces",
    "rpsl",
    "stats",
    "feed",
    "overrides",
    "drop",
    "emit",
    "report",
    "mark",
    "back",
    "compact",
];

static KINDS: [&str; 4] = ["rpsl", "stats", "feed", "overrides"];

/// The first words of commands.
pub(crate) fn commands() -> &'static [&'static str] {
    &COMMANDS
}

/// The first words of lines.
pub(crate) fn keywords() -> &'static [&'static str] {
    &KEYWORDS
}

/// The kinds of source that a line drops.
pub(crate) fn kinds() -> &'static [&'static str] {
    &KINDS
}

/// The form of a command that begins with this word.
pub(crate) fn command_form(word: &str) -> &'static str {
    match word {
        "build" => "geofeed build JOB",
        "lookup" => "geofeed lookup FILE ADDR",
        "explain" => "geofeed explain JOB ADDR",
        "gen" => "geofeed gen N FILE",
        "publish" => "geofeed publish JOB BLOCK FILE",
        "check" => "geofeed check JOB URL",
        "census" => "geofeed census JOB",
        _ => "geofeed COMMAND ..",
    }
}

/// The form of a line that begins with these two words.
pub(crate) fn line_form(first: &str, second: &str) -> &'static str {
    match (first, second) {
        ("epoch", _) => "epoch N",
        ("type", _) => "type NAME",
        ("pieces", _) => "pieces N",
        ("rpsl", _) => "rpsl SLOT FILE",
        ("stats", _) => "stats SLOT FILE",
        ("feed", _) => "feed URL FILE",
        ("overrides", _) => "overrides FILE",
        ("drop", "rpsl") => "drop rpsl SLOT",
        ("drop", "stats") => "drop stats SLOT",
        ("drop", "feed") => "drop feed URL",
        ("drop", "overrides") => "drop overrides",
        ("drop", _) => "drop rpsl SLOT, drop stats SLOT, drop feed URL or drop overrides",
        ("emit", _) => "emit FILE",
        ("mark", _) => "mark NAME",
        ("back", _) => "back NAME",
        ("report", _) => "report",
        ("compact", _) => "compact",
        _ => "KEYWORD ..",
    }
}

/// The last word of a form.
pub(crate) fn last_part(form: &'static str) -> &'static str {
    match form.rsplit_once(' ') {
        Some((_, last)) => last,
        None => form,
    }
}

/// How many words of a form stand for others, which are those in capitals.
pub(crate) fn operands_of(form: &'static str) -> usize {
    form.split(' ').filter(|word| is_operand(word)).count()
}

fn is_operand(word: &str) -> bool {
    match word.as_bytes() {
        [first, ..] => first.is_ascii_uppercase(),
        [] => false,
    }
}
