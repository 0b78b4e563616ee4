//! All tags of an object as a JSON object.
ghost use Rattle.std.specs.Prelude.{◌≡◌, ◌++◌, ◌∷◌, [], encode_utf8_all, IfOk, OnOk};
ghost use Rattle.std.specs.FinMap as map;
ghost use Rattle.std.specs.List.{flat_map};
ghost use Rattle.std.specs.Str.{chars};
ghost use Rattle.std.specs.String.{string_bytes};
ghost use Rattle.json.specs.Token as tokens;
ghost use Rattle.row_rules.specs.Cell.{json_of};

use json::Writer;
use osm_base::{OutOfMemory, Tags};
use std::alloc::Global;

/// Writes a tag as a member.
fn write_tag(writer: &mut Writer<Global>, key: &str, value: &str) -> Result<(), OutOfMemory>
    ensures member { OnOk result (writer.new.tokens ≡ writer.old.tokens ++ (tokens.key (encode_utf8_all (chars key.now)) ∷ tokens.string (encode_utf8_all (chars value.now)) ∷ [])) }
    ensures before { writer.new.before ≡ writer.old.before }
{
    writer.key(key)?;
    writer.string(value)?;
    Ok(())
}

/// All tags as the text of a JSON object without spaces, its keys in byte order.
pub(crate) fn tags_text(alloc: Global, tags: &Tags) -> Result<String, OutOfMemory>
    ensures text { IfOk result (λ text. string_bytes text ≡ json_of tags.now) }
{
    let mut writer = Writer::new(Vec::new(alloc));
    writer.begin_object()?;
    for index in 0..tags.len() {
        let (key, value) = tags.nth(index);
        write_tag(&mut writer, key, value)?;
    }
    writer.end_object()?;
    // SAFETY: what the writer gives is UTF-8.
    Ok(unsafe { String::from_utf8_unchecked(writer.into_inner()) })
}
