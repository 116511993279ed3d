//! A body while it is printed.
ghost use Rattle.std.specs.Prelude.{◌≡◌, [], ◌∷◌, ◌++◌, decimal, OnOk};
ghost use Rattle.std.specs.Fmt.{signed_decimal};
ghost use Rattle.json.specs.Token.{begin_object, end_object, begin_array, end_array, key, string, number, null};
ghost use Rattle.json.specs.Print.{print};
ghost use Rattle.shop_requests.specs.Ids.{id_text};
ghost use Rattle.serde_json.specs.Data as json;
ghost use Rattle.reply_json.specs.Objects.{count_data, number_data, id_data};
ghost use Rattle.reply_json.specs.Tokens.{member_tokens};

use json::Writer;
use shop_defs::NoMemory;
use shop_requests::write_id;
use std::marker::Model;

/// A body while it is printed, into one buffer. Contracts see the tokens that it has so far.
///
/// Where a method answers want of memory, the body is to be let go.
#[derive(Drop)]
pub(crate) struct Body {
    out: Writer,
}

impl Model for Body {
    ghost use Rattle.std.specs.Prelude.{◌≡◌, List, []};
    ghost use Rattle.json.specs.Token.{Token, tokens_code};

    ghost Value = { List Token };

    ghost coded = { tokens_code };

    ghost view = { λ body. body.out.tokens };

    ghost invariant = { λ body. body.out.before ≡ [] };
}

impl Body {
    /// A body with nothing in it, which is printed into that memory. The bytes in it are let go.
    pub(crate) fn over(mut room: Vec<u8>) -> Body
        ensures { result ≡ [] }
    {
        room.clear();
        Body {
            out: Writer::new(room),
        }
    }

    /// The memory, with the bytes that are printed.
    pub(crate) fn into_room(self) -> Vec<u8>
        ensures { result.items ≡ print self }
    {
        let Body { out } = self;
        out.into_inner()
    }

    pub(crate) fn begin_object(&mut self) -> Result<(), NoMemory>
        ensures { OnOk result (self.new ≡ self.old ++ begin_object ∷ []) }
    {
        self.out.begin_object()?;
        Ok(())
    }

    pub(crate) fn end_object(&mut self) -> Result<(), NoMemory>
        ensures { OnOk result (self.new ≡ self.old ++ end_object ∷ []) }
    {
        self.out.end_object()?;
        Ok(())
    }

    fn begin_array(&mut self) -> Result<(), NoMemory>
        ensures { OnOk result (self.new ≡ self.old ++ begin_array ∷ []) }
    {
        self.out.begin_array()?;
        Ok(())
    }

    pub(crate) fn end_array(&mut self) -> Result<(), NoMemory>
        ensures { OnOk result (self.new ≡ self.old ++ end_array ∷ []) }
    {
        self.out.end_array()?;
        Ok(())
    }

    /// The name of a member, before its value.
    pub(crate) fn name(&mut self, name: &str) -> Result<(), NoMemory>
        ensures { OnOk result (self.new ≡ self.old ++ key name.now ∷ []) }
    {
        self.out.key(name)?;
        Ok(())
    }

    /// The name of a member that is an array, and the beginning of that.
    pub(crate) fn begin_list(&mut self, name: &str) -> Result<(), NoMemory>
        ensures { OnOk result (self.new ≡ self.old ++ key name.now ∷ begin_array ∷ []) }
    {
        self.name(name)?;
        self.begin_array()
    }

    pub(crate) fn text(&mut self, text: &str) -> Result<(), NoMemory>
        ensures { OnOk result (self.new ≡ self.old ++ string text.now ∷ []) }
    {
        self.out.string(text)?;
        Ok(())
    }

    fn count(&mut self, count: u64) -> Result<(), NoMemory>
        ensures { OnOk result (self.new ≡ self.old ++ number (decimal count) ∷ []) }
    {
        self.out.u64(count)?;
        Ok(())
    }

    fn number(&mut self, amount: i64) -> Result<(), NoMemory>
        ensures { OnOk result (self.new ≡ self.old ++ number (signed_decimal amount) ∷ []) }
    {
        self.out.i64(amount)?;
        Ok(())
    }

    pub(crate) fn null(&mut self) -> Result<(), NoMemory>
        ensures { OnOk result (self.new ≡ self.old ++ null ∷ []) }
    {
        self.out.null()?;
        Ok(())
    }

    /// An id, as its text.
    pub(crate) fn id(&mut self, id: u128) -> Result<(), NoMemory>
        ensures { OnOk result (self.new ≡ self.old ++ string (id_text id) ∷ []) }
    {
        let mut digits = [0; 32];
        self.text(write_id(id, &mut digits))
    }

    pub(crate) fn text_member(&mut self, name: &str, text: &str) -> Result<(), NoMemory>
        ensures { OnOk result (self.new ≡ self.old ++ member_tokens name.now (json.string text.now)) }
    {
        self.name(name)?;
        self.text(text)
    }

    pub(crate) fn count_member(&mut self, name: &str, count: u64) -> Result<(), NoMemory>
        ensures { OnOk result (self.new ≡ self.old ++ member_tokens name.now (count_data count)) }
    {
        self.name(name)?;
        self.count(count)
    }

    pub(crate) fn number_member(&mut self, name: &str, amount: &i64) -> Result<(), NoMemory>
        ensures { OnOk result (self.new ≡ self.old ++ member_tokens name.now (number_data amount.now)) }
    {
        self.name(name)?;
        self.number(*amount)
    }

    pub(crate) fn id_member(&mut self, name: &str, id: u128) -> Result<(), NoMemory>
        ensures { OnOk result (self.new ≡ self.old ++ member_tokens name.now (id_data id)) }
    {
        self.name(name)?;
        self.id(id)
    }
}
