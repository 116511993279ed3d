//! Texts of products and categories, in the first language that has one.
ghost use Rattle.std.specs.Prelude.{◌≡◌, ◌∷◌, ◌&&◌, is_some, None};
ghost use Rattle.std.specs.Option.{option_copied, option_or, option_to_list};
ghost use Rattle.shop_chain.specs.Translations as spec;

use crate::languages::Chain;
use crate::numbers::{DESCRIPTION, NAME};
use shop_defs::{Entity, Key, Look, Row, Value};

/// The text of a product's field in the first language of the chain that has one: `None` where none
/// has. In each language the product's own translation is asked, and then, where a parent is handed
/// in, the parent's. It takes no memory, and the text lives as long as the rows.
///
/// `field` is the number of a field of the product's translations: 1 the name, 2 the description.
/// The text is UTF-8.
pub fn text_of<'a, L: Look>(
    rows: &'a L,
    version: u128,
    product: u128,
    parent: Option<u128>,
    field: u8,
    chain: &Chain,
) -> Option<&'a [u8]>
    ensures value { option_copied result ≡ spec.text_of (L.shown rows.entry.now) version product parent field chain.now }
    ensures words { spec.IsProductText (L.shown rows.entry.now) version product parent field chain.now (option_copied result) }
{
    let asked = Asked {
        entity: Entity::ProductTranslation,
        version,
        id: product,
        parent,
    };
    bytes(translated(rows, &asked, field, chain.as_slice()))
}

/// The text of a category's field in the first language of the chain that has one: `None` where none
/// has. It takes no memory, and the text lives as long as the rows.
///
/// `field` is the number of a field of the category's translations: 1 the name, 2 the description.
/// The text is UTF-8.
pub fn category_text<'a, L: Look>(
    rows: &'a L,
    version: u128,
    category: u128,
    field: u8,
    chain: &Chain,
) -> Option<&'a [u8]>
    ensures value { option_copied result ≡ spec.category_text (L.shown rows.entry.now) version category field chain.now }
    ensures words { spec.IsCategoryText (L.shown rows.entry.now) version category field chain.now (option_copied result) }
{
    let asked = Asked {
        entity: Entity::CategoryTranslation,
        version,
        id: category,
        parent: None,
    };
    bytes(translated(rows, &asked, field, chain.as_slice()))
}

/// Whose translations are asked.
#[derive(Drop, Clone, Copy)]
pub(crate) struct Asked {
    /// The kind of the translations.
    pub(crate) entity: Entity,
    pub(crate) version: u128,
    /// Whose text.
    pub(crate) id: u128,
    /// Whose text counts in a language in which there is none of that id.
    pub(crate) parent: Option<u128>,
}

/// The text, as the value that holds it, in the first language that has one.
pub(crate) fn translated<'a, L: Look>(
    rows: &'a L,
    asked: &Asked,
    field: u8,
    languages: &[u128],
) -> Option<&'a Value>
    ensures { option_copied result ≡ spec.as_value (spec.translated (L.shown rows.entry.now) asked.now.entity asked.now.version (asked.now.id ∷ option_to_list asked.now.parent) field languages.now) }
{
    let mut rest = languages;
    while let [language, more @ ..] = rest {
        if let Some(found) = in_language(rows, asked, field, *language) {
            return Some(found);
        }
        rest = more;
    }
    None
}

/// The description and the name of one translation or of several, as the values that hold them.
#[derive(Drop, Clone, Copy)]
pub(crate) struct Texts<'a> {
    pub(crate) description: Option<&'a Value>,
    pub(crate) name: Option<&'a Value>,
}

impl<'a> Texts<'a> {
    /// Neither text.
    fn none() -> Texts<'a>
        ensures description { option_copied result.description ≡ None }
        ensures name { option_copied result.name ≡ None }
    {
        Texts {
            description: None,
            name: None,
        }
    }

    /// Whether both texts are there.
    fn are_whole(&self) -> bool
        ensures { result ≡ (is_some self.now.description && is_some self.now.name) }
    {
        self.description.is_some() && self.name.is_some()
    }

    /// Each text, or the later one where it is not there.
    fn or(self, later: Texts<'a>) -> Texts<'a>
        ensures description { option_copied result.description ≡ option_or (option_copied self.entry.description) (option_copied later.entry.description) }
        ensures name { option_copied result.name ≡ option_or (option_copied self.entry.name) (option_copied later.entry.name) }
    {
        Texts {
            description: first(self.description, later.description),
            name: first(self.name, later.name),
        }
    }
}

/// The value, or the later one where there is none.
fn first<'a>(value: Option<&'a Value>, later: Option<&'a Value>) -> Option<&'a Value>
    ensures { option_copied result ≡ option_or (option_copied value.entry) (option_copied later.entry) }
{
    match value {
        Some(value) => Some(value),
        None => later,
    }
}

/// The description and the name, each in the first language that has one. The row of a translation is
/// looked up once for both, and only while one of them is missing.
#[tactic(auto, using(crate::proofs::BothTexts::both))]
pub(crate) fn both_translated<'a, L: Look>(
    rows: &'a L,
    asked: &Asked,
    languages: &[u128],
) -> Texts<'a>
    ensures description { option_copied result.description ≡ spec.as_value (spec.translated (L.shown rows.entry.now) asked.now.entity asked.now.version (asked.now.id ∷ option_to_list asked.now.parent) DESCRIPTION languages.now) }
    ensures name { option_copied result.name ≡ spec.as_value (spec.translated (L.shown rows.entry.now) asked.now.entity asked.now.version (asked.now.id ∷ option_to_list asked.now.parent) NAME languages.now) }
{
    let mut found = Texts::none();
    for language in languages {
        if found.are_whole() {
            return found;
        }
        found = found.or(both_in_language(rows, asked, *language));
    }
    found
}

/// Both texts in one language: the own ones, else the parent's.
#[tactic(auto, using(crate::proofs::BothTexts::both))]
fn both_in_language<'a, L: Look>(rows: &'a L, asked: &Asked, language: u128) -> Texts<'a>
    ensures description { option_copied result.description ≡ spec.as_value (spec.in_language (L.shown rows.entry.now) asked.now.entity asked.now.version (asked.now.id ∷ option_to_list asked.now.parent) DESCRIPTION language) }
    ensures name { option_copied result.name ≡ spec.as_value (spec.in_language (L.shown rows.entry.now) asked.now.entity asked.now.version (asked.now.id ∷ option_to_list asked.now.parent) NAME language) }
{
    let own = both_at(rows, asked, asked.id, language);
    if own.are_whole() {
        return own;
    }
    match asked.parent {
        Some(parent) => own.or(both_at(rows, asked, parent, language)),
        None => own,
    }
}

/// Both texts in the translation of that id to that language.
fn both_at<'a, L: Look>(rows: &'a L, asked: &Asked, id: u128, language: u128) -> Texts<'a>
    ensures description { option_copied result.description ≡ spec.as_value (spec.text_at (L.shown rows.entry.now) asked.now.entity asked.now.version DESCRIPTION language id) }
    ensures name { option_copied result.name ≡ spec.as_value (spec.text_at (L.shown rows.entry.now) asked.now.entity asked.now.version NAME language id) }
{
    match translation(rows, asked, id, language) {
        Some(row) => Texts {
            description: text(row.field(DESCRIPTION)),
            name: text(row.field(NAME)),
        },
        None => Texts::none(),
    }
}

/// The translation of that id to that language.
fn translation<'a, L: Look>(rows: &'a L, asked: &Asked, id: u128, language: u128) -> Option<&'a Row>
    ensures { option_copied result ≡ L.shown rows.entry.now (spec.translation_key asked.now.entity asked.now.version id language) }
{
    rows.row(&Key {
        entity: asked.entity,
        version: asked.version,
        id,
        second: language,
    })
}

/// The text in one language: the own one, else the parent's.
fn in_language<'a, L: Look>(
    rows: &'a L,
    asked: &Asked,
    field: u8,
    language: u128,
) -> Option<&'a Value>
    ensures { option_copied result ≡ spec.as_value (spec.in_language (L.shown rows.entry.now) asked.now.entity asked.now.version (asked.now.id ∷ option_to_list asked.now.parent) field language) }
{
    if let Some(own) = text_at(rows, asked, field, asked.id, language) {
        return Some(own);
    }
    match asked.parent {
        Some(parent) => text_at(rows, asked, field, parent, language),
        None => None,
    }
}

/// The text in the translation of that id to that language.
fn text_at<'a, L: Look>(
    rows: &'a L,
    asked: &Asked,
    field: u8,
    id: u128,
    language: u128,
) -> Option<&'a Value>
    ensures { option_copied result ≡ spec.as_value (spec.text_at (L.shown rows.entry.now) asked.now.entity asked.now.version field language id) }
{
    match translation(rows, asked, id, language) {
        Some(row) => text(row.field(field)),
        None => None,
    }
}

/// The value where it is a text.
fn text(value: Option<&Value>) -> Option<&Value>
    ensures { option_copied result ≡ spec.as_value (spec.text (option_copied value.entry)) }
{
    match value {
        Some(Value::Text(_)) => value,
        _ => None,
    }
}

/// The bytes of the text that the value is.
fn bytes(value: Option<&Value>) -> Option<&[u8]>
    ensures { option_copied result ≡ spec.text (option_copied value.entry) }
{
    match value {
        Some(Value::Text(text)) => Some(text.as_bytes()),
        _ => None,
    }
}
