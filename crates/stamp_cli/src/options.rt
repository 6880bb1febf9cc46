//! The options and the file of a command line, for programs whose arguments are those.

ghost use Rattle.std.specs.Prelude.{◌≡◌, [], option_map, IfNone, IfSome};
ghost use Rattle.std.specs.List.{find, list_any};
ghost use Rattle.stamp_cli.specs.Options as spec;
ghost use Rattle.stamp_cli.specs.Options.{are_given, items_of};
ghost use Rattle.stamp_cli.specs.Given.{items_given, table_of, texts};
ghost use Rattle.stamp_cli.specs.inner.Options.{IsFirst, item_of};

/// The options that a program takes. A name is in one of the two lists.
#[derive(Clone, Copy, Debug)]
pub struct Options {
    /// Those that no word follows.
    pub flags: &'static [&'static str],
    /// Those that a word follows.
    pub worded: &'static [&'static str],
}

/// What a command line gives: some of a program's options, each once, and a file or none.
#[derive(Clone, Copy, Debug)]
pub struct Given<'b, 'a> {
    options: Options,
    args: &'b [&'a str],
}

/// A part of a command line.
#[derive(Clone, Copy)]
enum Item<'a> {
    /// An option alone.
    Flag(&'a str),
    /// An option and the word behind it.
    Worded(&'a str, &'a str),
    /// The name of a file.
    File(&'a str),
    /// A word that is none of these.
    Stray(&'a str),
}

fn is_in(names: &[&str], word: &str) -> bool
    ensures { result ≡ spec.is_in (texts names.now) word.now }
{
    names.iter().any(|name| *name == word)
}

/// What a word is that no word belongs to.
fn alone<'a>(options: &Options, word: &'a str) -> Item<'a>
    ensures { item_of result ≡ spec.alone (table_of options.now) word.now }
{
    if is_in(options.worded, word) {
        Item::Stray(word)
    } else if is_in(options.flags, word) {
        Item::Flag(word)
    } else if word.as_bytes().first() == Some(&b'-') {
        Item::Stray(word)
    } else {
        Item::File(word)
    }
}

/// The first part of some arguments, and those behind it.
fn first_of<'b, 'a>(options: &Options, args: &'b [&'a str]) -> Option<(Item<'a>, &'b [&'a str])>
    ensures none { IfNone result (texts args.now ≡ []) }
    ensures first { IfSome result (λ found. IsFirst (table_of options.now) (texts args.now) (texts found.1.now) (item_of found.0)) }
{
    match args {
        [] => None,
        [word] => Some((alone(options, word), &args[1..])),
        [option, word, rest @ ..] if is_in(options.worded, option) => {
            Some((Item::Worded(option, word), rest))
        }
        [word, rest @ ..] => Some((alone(options, word), rest)),
    }
}

/// Whether they are of one name, or both files.
fn is_as(item: &Item, other: &Item) -> bool
    ensures { result ≡ spec.is_as (item_of item.now) (item_of other.now) }
{
    match (item, other) {
        (Item::File(_), Item::File(_)) => true,
        (Item::Flag(name) | Item::Worded(name, _), Item::Flag(other) | Item::Worded(other, _)) => {
            name == other
        }
        _ => false,
    }
}

/// The first part of some arguments that is as this one.
fn find<'a>(options: &Options, item: &Item, args: &[&'a str]) -> Option<Item<'a>>
    ensures { option_map item_of result ≡ find (spec.is_as (item_of item.now)) (items_of (table_of options.now) (texts args.now)) }
{
    let (first, rest) = first_of(options, args)?;
    if is_as(item, &first) {
        Some(first)
    } else {
        find(options, item, rest)
    }
}

fn is_stray(item: &Item) -> bool
    ensures { result ≡ spec.is_stray (item_of item.now) }
{
    matches!(item, Item::Stray(_))
}

/// Whether a part of some arguments is as this one.
fn stands_in(options: &Options, item: &Item, args: &[&str]) -> bool
    ensures { result ≡ list_any (spec.is_as (item_of item.now)) (items_of (table_of options.now) (texts args.now)) }
{
    find(options, item, args).is_some()
}

/// Whether each part of some arguments is an option or a file, and none comes twice.
fn is_given(options: &Options, args: &[&str]) -> bool
    ensures { result ≡ are_given (items_of (table_of options.now) (texts args.now)) }
{
    let Some((first, rest)) = first_of(options, args) else {
        return true;
    };
    if is_stray(&first) {
        return false;
    }
    if stands_in(options, &first, rest) {
        return false;
    }
    is_given(options, rest)
}

/// Reads arguments that are some of these options, in any order and each at most once, and a file at any place or none.
/// The word behind an option that takes one belongs to it, whatever it is. Any other word names the file, if it doesn't
/// begin with `-`. `None` exactly where the arguments are not so: a word that begins with `-` is no option, an option
/// lacks its word or comes twice, or there are two files.
pub fn given_in<'b, 'a>(options: Options, args: &'b [&'a str]) -> Option<Given<'b, 'a>>
    ensures { option_map items_given result ≡ spec.given_in (table_of options) (texts args.now) }
{
    if is_given(&options, args) {
        Some(Given { options, args })
    } else {
        None
    }
}

impl<'b, 'a> Given<'b, 'a> {
    /// Whether an option of this name was given, with or without a word.
    pub fn has(&self, name: &str) -> bool
        ensures { result ≡ spec.has name.now (items_given self.now) }
    {
        stands_in(&self.options, &Item::Flag(name), self.args)
    }

    /// The word behind the option of this name, if it was given and takes one.
    pub fn word_of(&self, name: &str) -> Option<&'a str>
        ensures { option_map (λ word. word.now) result ≡ spec.word_of name.now (items_given self.now) }
    {
        match find(&self.options, &Item::Flag(name), self.args) {
            Some(Item::Worded(_, word)) => Some(word),
            _ => None,
        }
    }

    /// The name of the file, if there is one.
    pub fn file(&self) -> Option<&'a str>
        ensures { option_map (λ name. name.now) result ≡ spec.file_of (items_given self.now) }
    {
        match find(&self.options, &Item::File(""), self.args) {
            Some(Item::File(name)) => Some(name),
            _ => None,
        }
    }
}
