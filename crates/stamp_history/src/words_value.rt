//! Words out of JSON values.

ghost use Rattle.std.specs.Prelude.{◌≡◌};
ghost use Rattle.serde_json.specs.View.{view, items_view};
ghost use Rattle.stamp_history.specs.WordsValue as spec;

use serde_json::Value;
use stamp_core::{MOST_WORDS, Words};

fn listed_words(list: &[Value]) -> Option<Words>
    ensures { result ≡ spec.listed_words (items_view list.now) }
{
    if list.len() > MOST_WORDS {
        return None;
    }
    let mut held = [0; 16];
    for (i, value) in list.iter().enumerate() {
        held[i] = value.as_u64()?;
    }
    Words::new(&held[..list.len()])
}

/// Reads words from a JSON value; `None` where it is no list of 1 to 16 whole numbers.
pub(crate) fn words_of(value: &Value) -> Option<Words>
    ensures { result ≡ spec.words (view value.now) }
{
    listed_words(value.as_array()?)
}
