//! The fields of an entity in the order of the bytes of their names.
ghost use Rattle.std.specs.Prelude.{◌≡◌};
ghost use Rattle.shop_defs.specs.Tables.{fields_of};
ghost use Rattle.reply_json.specs.FieldOrder.{fields_at, fields_by_name};

use shop_defs::Entity;

/// The places of an entity's fields in its table, counted from 0, in the order of the bytes of their
/// names.
#[tactic(auto, unfolding(crate::specs::FieldOrder::fields_by_name, shop_defs::specs::Tables::fields_of))]
pub(crate) fn places_by_name(entity: Entity) -> &'static [usize]
    ensures { fields_at (fields_of entity) result.now ≡ fields_by_name entity }
{
    match entity {
        Entity::Language => &[0, 1],
        Entity::Tax => &[0, 1],
        Entity::Category => &[1, 0, 2],
        Entity::CategoryTranslation | Entity::ProductTranslation => &[1, 0],
        Entity::Product => &[2, 4, 8, 7, 5, 1, 0, 3, 6],
        Entity::ProductCategory => &[],
        Entity::ProductPrice => &[4, 3, 2, 5, 0, 1],
        Entity::Stream => &[0],
        Entity::StreamFilter => &[7, 3, 6, 2, 5, 1, 0, 4],
        Entity::Rule => &[0, 1],
        Entity::RuleCondition => &[5, 4, 2, 3, 9, 1, 8, 0, 7, 6],
        Entity::Promotion => &[1, 2, 3, 0, 5, 6, 4],
        Entity::PromotionDiscount => &[2, 0, 1, 3],
        Entity::ShippingMethod => &[1, 0, 3, 2],
        Entity::ShippingPrice => &[2, 5, 4, 3, 0, 6, 1],
        Entity::Stock => &[1, 0],
        Entity::Cart => &[5, 4, 3, 0, 6, 2, 1],
        Entity::CartLine => &[0, 3, 1, 2],
        Entity::CartCode => &[0, 1],
        Entity::Order => &[1, 5, 0, 4, 2, 3],
        Entity::OrderLine => &[0, 2, 1, 3, 6, 5, 4],
        Entity::OrderTax => &[0, 1],
        Entity::Draft => &[2, 1, 0],
        Entity::DraftCommit => &[0],
    }
}
