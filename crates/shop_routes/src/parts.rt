//! The parts of a path, as numbers.
ghost use Rattle.std.specs.Prelude.{◌≡◌, ◌∷◌, IfOk, IfErr};
ghost use Rattle.std.specs.Option.{option_copied};
ghost use Rattle.matchit.specs.Params.{AllText, named};
ghost use Rattle.shop_routes.specs.PathParts.{Parts, bad_part, id_form, number_in, numbers_in, text_in};
ghost use Rattle.shop_routes.specs.DigitTexts.{page_of};
ghost use Rattle.shop_routes.specs.Gathered.{AreFoundAmong, AreTextsOf, text_or};
ghost use Rattle.shop_routes.specs.Seen.{parts_seen};

use crate::numerals::{read_id_or_nil, read_page};
use matchit::Params;
use shop_requests::read_id;

/// The numbers that stand in a path, each 0 where the path has none of that name.
#[derive(Clone, Copy)]
pub struct Numbers {
    pub version: u128,
    pub id: u128,
    pub second: u128,
    pub page: u32,
}

/// The texts that stand for numbers in a path, by their names: none where the path has none of that name.
#[derive(Clone, Copy)]
pub struct Texts<'p> {
    pub version: Option<&'p str>,
    pub id: Option<&'p str>,
    pub second: Option<&'p str>,
    pub page: Option<&'p str>,
}

/// The numbers of a path, or the name of its first malformed part. Where `nil_is_allowed`, 32 digits `0` are read as 0.
#[tactic(auto, unfolding(crate::specs::PathParts::bad_part, crate::specs::PathParts::numbers_in))]
pub fn read_numbers(params: &Params<'_, '_>, nil_is_allowed: bool) -> Result<Numbers, &'static str>
    requires { AllText (parts_seen params.now) }
    ensures ok { IfOk result (λ numbers. (bad_part nil_is_allowed (parts_seen params.now) ≡ None)
        × (numbers ≡ numbers_in nil_is_allowed (parts_seen params.now))) }
    ensures bad { IfErr result (λ name. bad_part nil_is_allowed (parts_seen params.now) ≡ Some name.now) }
{
    let texts = texts_in(params);
    Ok(Numbers {
        version: read_part(texts.version, nil_is_allowed).ok_or("version")?,
        id: read_part(texts.id, nil_is_allowed).ok_or("id")?,
        second: read_part(texts.second, nil_is_allowed).ok_or("second")?,
        page: read_page_part(texts.page).ok_or("page")?,
    })
}

/// The texts in a path, found in one pass over its parts.
fn texts_in<'p>(params: &Params<'_, 'p>) -> Texts<'p>
    requires { AllText (parts_seen params.now) }
    ensures { AreTextsOf result (parts_seen params.now) }
{
    let mut texts = Texts {
        version: None,
        id: None,
        second: None,
        page: None,
    };
    let mut rest = params.iter();
    while let Some((name, text)) = rest.next() {
        texts = with_text(&texts, name, text);
    }
    texts
}

/// The texts with one more behind them.
fn with_text<'p>(texts: &Texts<'p>, name: &str, text: &'p str) -> Texts<'p>
    ensures { (rest all : Parts) → AreFoundAmong texts.now ((name.now, text.now) ∷ rest) all → AreFoundAmong result rest all }
{
    let version = or_named(texts.version, "version", name, text);
    let id = or_named(texts.id, "id", name, text);
    let second = or_named(texts.second, "second", name, text);
    let page = or_named(texts.page, "page", name, text);
    Texts {
        version,
        id,
        second,
        page,
    }
}

/// The text that was found, or else this one where it has the name.
fn or_named<'p>(found: Option<&'p str>, wanted: &str, name: &str, text: &'p str) -> Option<&'p str>
    ensures { (rest : Parts) → text_or (option_copied result) (named wanted.now rest) ≡ text_or (option_copied found.entry) (named wanted.now ((name.now, text.now) ∷ rest)) }
{
    match found {
        Some(found) => Some(found),
        None => if_named(wanted, name, text),
    }
}

fn if_named<'p>(wanted: &str, name: &str, text: &'p str) -> Option<&'p str>
    ensures { (rest : Parts) → text_or (option_copied result) (named wanted.now rest) ≡ named wanted.now ((name.now, text.now) ∷ rest) }
{
    if name == wanted { Some(text) } else { None }
}

/// The id that a part of the path spells: 0 where the path has no such part, and none where it is malformed.
fn read_part(text: Option<&str>, nil_is_allowed: bool) -> Option<u128>
    ensures { result ≡ number_in (id_form nil_is_allowed) (option_copied text.entry) }
{
    match text {
        None => Some(0),
        Some(text) if nil_is_allowed => read_id_or_nil(text.as_bytes()),
        Some(text) => read_id(text.as_bytes()),
    }
}

/// The page that a part of the path spells: 0 where the path has no such part, and none where it is malformed.
fn read_page_part(text: Option<&str>) -> Option<u32>
    ensures { result ≡ number_in page_of (option_copied text.entry) }
{
    match text {
        None => Some(0),
        Some(text) => read_page(text.as_bytes()),
    }
}

/// A part of the path as it stands there, empty where the path has none of that name.
pub fn text_part<'p>(params: &Params<'_, 'p>, name: &str) -> &'p str
    requires { AllText (parts_seen params.now) }
    ensures { result.now ≡ text_in name.now (parts_seen params.now) }
{
    params.get(name).unwrap_or("")
}
