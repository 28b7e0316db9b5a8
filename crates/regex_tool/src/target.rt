//! Filters that are named by their files, or by their names.
ghost use Rattle.std.specs.Prelude.{◌≡◌, ◌≢◌, ℕ, List, ◌++◌, option_copied, option_map, IfSome, IfNone};
ghost use Rattle.std.specs.List.{list_all};
ghost use Rattle.jail_conf.specs.Jails.{is_name_byte, is_jail_name};
ghost use Rattle.regex_tool.specs.Targets.{before_file, file_in, before_ending, is_filter_name, name_in, or_root, directory, directory_in, target_of, shown, name_if, is_option_text, optioned, bare, named_target, target_in};

/// A filter by its name, and the directory of its configuration.
#[derive(Clone, Copy)]
pub(crate) struct Target<'w> {
    pub dir: &'w str,
    pub name: &'w str,
    /// What stands behind the bracket that begins its options.
    pub options: Option<&'w str>,
}

/// Whether the name of a jail may have the byte.
fn is_name_byte(byte: u8) -> bool
    ensures { result ≡ is_name_byte byte }
{
    byte.is_ascii_alphanumeric() || byte == b'_' || byte == b'.' || byte == b'-'
}

/// Whether the name of a jail may have each of the bytes.
fn are_name_bytes(bytes: &[u8]) -> bool
    ensures { result ≡ list_all is_name_byte bytes.now }
{
    bytes.iter().all(|byte| is_name_byte(*byte))
}

/// Whether a jail may have this name.
fn is_jail_name(name: &[u8]) -> bool
    ensures { result ≡ is_jail_name name.now }
{
    1 <= name.len() && name.len() <= 64 && are_name_bytes(name)
}

/// Whether a filter may have this name.
fn is_filter_name(name: &str) -> bool
    ensures { result ≡ is_filter_name name.now }
{
    // These sections of a `jail.conf` are no jails.
    is_jail_name(name.as_bytes()) && !(name == "DEFAULT" || name == "INCLUDES")
}

/// What stands before an ending.
pub(crate) fn before_ending<'t>(ending: &str, text: &'t str) -> Option<&'t str>
    ensures { option_copied result ≡ before_ending ending.now text.now }
{
    let front = text.strip_suffix(ending)?;
    Some(front)
}

/// A path up to its last slash, and what stands behind it.
fn cut_file(path: &str) -> (&str, &str)
    ensures before { result.0.now ≡ before_file path.now }
    ensures file { result.1.now ≡ file_in path.now }
{
    let bytes = path.as_bytes();
    let mut start = bytes.len();
    while start > 0 && bytes[start - 1] != b'/' {
        start -= 1;
    }
    (&path[..start], &path[start..])
}

/// The name of the filter that a file is.
fn name_in(file: &str) -> Option<&str>
    ensures { option_copied result ≡ name_in file.now }
{
    let name = before_ending(".conf", file)?;
    if is_filter_name(name) {
        Some(name)
    } else {
        None
    }
}

fn or_root(dir: &str) -> &str
    ensures { result.now ≡ or_root dir.now }
{
    if dir.is_empty() { "/" } else { dir }
}

/// The directory that stands before `filter.d/`.
fn directory(before: &str) -> Option<&str>
    ensures { option_copied result ≡ directory before.now }
{
    if before.is_empty() {
        return Some(".");
    }
    let dir = before_ending("/", before)?;
    Some(or_root(dir))
}

fn directory_in(path: &str) -> Option<&str>
    ensures { option_copied result ≡ directory_in path.now }
{
    let before = before_ending("filter.d/", path)?;
    directory(before)
}

/// The filter that a path names: it ends in `filter.d/NAME.conf`, which begins it or stands behind a slash.
#[tactic(auto, unfolding(crate::specs::Targets::target_of))]
pub(crate) fn target_of(path: &str) -> Option<Target<'_>>
    ensures { option_map shown result ≡ target_of path.now }
{
    let (before, file) = cut_file(path);
    let name = name_in(file)?;
    let dir = directory_in(before)?;
    Some(Target {
        dir,
        name,
        options: None,
    })
}

/// Whether options stand in one line.
fn is_option_text(text: &str) -> bool
    ensures { result ≡ is_option_text text.now }
{
    text.as_bytes().iter().all(|byte| 32 <= *byte)
}

fn optioned<'w>(dir: &'w str, name: &'w str, options: &'w str) -> Option<Target<'w>>
    ensures { option_map shown result ≡ optioned dir.entry.now name.entry.now options.entry.now }
{
    if !(is_filter_name(name) && is_option_text(options)) {
        return None;
    }
    Some(Target {
        dir,
        name,
        options: Some(options),
    })
}

fn bare<'w>(dir: &'w str, name: &'w str) -> Option<Target<'w>>
    ensures { option_map shown result ≡ bare dir.entry.now name.entry.now }
{
    if !is_filter_name(name) {
        return None;
    }
    Some(Target {
        dir,
        name,
        options: None,
    })
}

/// The filter that a name gives, perhaps with options, in the configuration of a directory.
#[tactic(auto, unfolding(crate::specs::Targets::named_target))]
fn named_target<'w>(dir: &'w str, regex: &'w str) -> Option<Target<'w>>
    ensures { option_map shown result ≡ named_target dir.entry.now regex.entry.now }
{
    match regex.split_once('[') {
        Some((name, options)) => optioned(dir, name, options),
        None => bare(dir, regex),
    }
}

/// The filter that a word names, where a directory may be given.
pub(crate) fn target_in<'w>(dir: Option<&'w str>, regex: &'w str) -> Option<Target<'w>>
    ensures { option_map shown result ≡ target_in (option_copied dir.entry) regex.entry.now }
{
    if let Some(dir) = dir {
        if let Some(target) = named_target(dir, regex) {
            return Some(target);
        }
    }
    target_of(regex)
}

/// The name of the jail that is tested.
pub(crate) fn jail_name<'w>(dir: Option<&'w str>, regex: &'w str) -> &'w str
    ensures { result.now ≡ name_if (target_in (option_copied dir.entry) regex.entry.now) }
{
    match target_in(dir, regex) {
        Some(target) => target.name,
        None => "regex",
    }
}
