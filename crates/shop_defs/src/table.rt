//! What the entities and their fields are: one line for each entity, field, reference and limit.
ghost use Rattle.std.specs.Prelude.{◌≡◌};
ghost use Rattle.shop_defs.specs.Tables as spec;
ghost use Rattle.shop_defs.specs.References as References;

use crate::entity::Entity;
use crate::words::{Choice, FieldName};

/// How many parts the key of an entity's rows has.
#[derive(Drop, Clone, Copy)]
pub enum KeyForm {
    /// The id alone. The second part is 0.
    OnePart,
    /// The id and a second part, neither of them 0.
    TwoParts,
}

/// What the rows of an entity have in common.
#[derive(Drop, Clone, Copy)]
pub struct EntityInfo {
    pub entity: Entity,
    pub key: KeyForm,
    /// Whether its rows may stand in versions beside the live one.
    pub has_versions: bool,
    /// Whether operations may write its rows. The others are made by commands alone.
    pub is_writable: bool,
}

/// What a field may hold. Any field but a required one or one with a preset may be null, too.
#[derive(Drop, Clone, Copy)]
pub enum FieldKind {
    /// True or false.
    Flag,
    /// A whole number from `low` to `high`. Amounts of money are in minor units, moments in seconds
    /// since 1970-01-01T00:00:00 UTC, rates in hundredths of a percent.
    Int { low: i64, high: i64 },
    /// What totals are rounded to: 1, 5, 10, 50 or 100 minor units.
    Interval,
    /// A text of `low` to `high` bytes of UTF-8.
    Text { low: usize, high: usize },
    /// One of some words.
    Choice(Choice),
    /// The id of a row of that entity.
    Id(Entity),
    /// An id that may name nothing.
    Loose,
    /// A day from 1970-01-01 to 9999-12-30, kept as its number of days since 1970-01-01.
    Day,
}

/// What a field holds where it would be null.
#[derive(Drop, Clone, Copy)]
pub enum Preset {
    /// Nothing: it is null then.
    Absent,
    Flag(bool),
    Int(i64),
    /// The first of the words of its choice.
    FirstWord,
}

/// Rules on a field that don't depend on its kind.
#[derive(Drop, Clone, Copy)]
pub struct Marks {
    /// It may not be null.
    pub required: bool,
    /// It keeps the value that it has when the row is made.
    pub fixed: bool,
    /// Where a product has none of its own, its parent's counts.
    pub inherited: bool,
    /// The fields of an entity with this mark are unique together: no two rows of one view
    /// agree in all of them, unless one of them is null.
    pub unique: bool,
}

/// A field of an entity.
#[derive(Drop, Clone, Copy)]
pub struct FieldInfo {
    /// Its place among the fields of the entity, counted from 1.
    pub number: u8,
    pub name: FieldName,
    pub kind: FieldKind,
    pub marks: Marks,
    pub preset: Preset,
}

/// Where a row holds the id of another.
#[derive(Drop, Clone, Copy)]
pub enum Part {
    /// In the id of its own key.
    Id,
    /// In the second part of its key.
    Second,
    /// In the field of that number.
    Field(u8),
}

/// What a delete of the row referred to does to the row that refers.
#[derive(Drop, Clone, Copy)]
pub enum OnDelete {
    /// It goes too.
    Cascade,
    /// It holds the delete back.
    Restrict,
    /// Its field becomes null.
    SetNull,
    /// Nothing, since the rows referred to are never deleted.
    NeverDeleted,
}

/// A reference from the rows of one entity to those of another.
#[derive(Drop, Clone, Copy)]
pub struct Reference {
    /// The entity whose rows refer.
    pub entity: Entity,
    pub part: Part,
    /// The entity referred to.
    pub of: Entity,
    pub on_delete: OnDelete,
    /// The number of the field in which both rows have to agree: the tree that they are nodes of.
    pub within: Option<u8>,
}

impl Reference {
    /// Whether a delete of the row referred to looks at the rows that refer: not where the rows
    /// referred to are never deleted.
    pub fn acts_on_delete(&self) -> bool
        ensures { result ≡ References.acts_on_delete self.now }
    {
        match self.on_delete {
            OnDelete::NeverDeleted => false,
            _ => true,
        }
    }
}

/// How deep the trees that an entity's rows make by their parents may be.
#[derive(Drop, Clone, Copy)]
pub struct LevelLimit {
    pub entity: Entity,
    /// The greatest level: a row without parent has level 1.
    pub most: u32,
}

/// How many rows of an entity one row that they belong to may have.
#[derive(Drop, Clone, Copy)]
pub struct OwnerLimit {
    pub entity: Entity,
    /// Where a row says which row it belongs to.
    pub owner: Part,
    pub most: u32,
}

macro_rules! entity {
    ($entity:ident; $key:ident; $versions:literal; $writable:literal) => {
        EntityInfo {
            entity: Entity::$entity,
            key: KeyForm::$key,
            has_versions: $versions,
            is_writable: $writable,
        }
    };
}

macro_rules! field {
    ($number:literal $name:ident; $kind:expr; $marks:ident) => {
        field!($number $name; $kind; $marks; Preset::Absent)
    };
    ($number:literal $name:ident; $kind:expr; $marks:ident; $preset:expr) => {
        FieldInfo {
            number: $number,
            name: FieldName::$name,
            kind: $kind,
            marks: $marks,
            preset: $preset,
        }
    };
}

macro_rules! reference {
    ($entity:ident; $part:expr; $of:ident; $on_delete:ident) => {
        Reference {
            entity: Entity::$entity,
            part: $part,
            of: Entity::$of,
            on_delete: OnDelete::$on_delete,
            within: None,
        }
    };
    ($entity:ident; $part:expr; $of:ident; $on_delete:ident; $within:literal) => {
        Reference {
            entity: Entity::$entity,
            part: $part,
            of: Entity::$of,
            on_delete: OnDelete::$on_delete,
            within: Some($within),
        }
    };
}

macro_rules! level {
    ($entity:ident; $most:literal) => {
        LevelLimit {
            entity: Entity::$entity,
            most: $most,
        }
    };
}

macro_rules! owned {
    ($entity:ident; $owner:expr; $most:literal) => {
        OwnerLimit {
            entity: Entity::$entity,
            owner: $owner,
            most: $most,
        }
    };
}

const NONE: Marks = Marks {
    required: false,
    fixed: false,
    inherited: false,
    unique: false,
};

const REQUIRED: Marks = Marks {
    required: true,
    ..NONE
};

const REQUIRED_FIXED: Marks = Marks {
    fixed: true,
    ..REQUIRED
};

const REQUIRED_UNIQUE: Marks = Marks {
    unique: true,
    ..REQUIRED
};

const REQUIRED_FIXED_UNIQUE: Marks = Marks {
    fixed: true,
    ..REQUIRED_UNIQUE
};

const FIXED: Marks = Marks {
    fixed: true,
    ..NONE
};

const INHERITED: Marks = Marks {
    inherited: true,
    ..NONE
};

const UNIQUE: Marks = Marks {
    unique: true,
    ..NONE
};

/// An amount of money, in minor units: 0 to 1,000,000,000,000.
pub const MONEY: FieldKind = FieldKind::Int {
    low: 0,
    high: 1_000_000_000_000,
};

/// A moment, in seconds since 1970-01-01T00:00:00 UTC: 0 to 250,000,000,000.
pub const MOMENT: FieldKind = FieldKind::Int {
    low: 0,
    high: 250_000_000_000,
};

/// A number that commands work out.
const PLAIN: FieldKind = FieldKind::Int {
    low: -4_000_000_000_000_000_000,
    high: 4_000_000_000_000_000_000,
};

const NAME: FieldKind = FieldKind::Text { low: 1, high: 255 };

const CODE: FieldKind = FieldKind::Text { low: 1, high: 64 };

/// The entities, by their numbers: the parts of a key, whether there are versions, and whether
/// operations may write.
pub static ENTITIES: [EntityInfo; 25] = [
    entity!(Language; OnePart; false; true),
    entity!(Tax; OnePart; false; true),
    entity!(Category; OnePart; true; true),
    entity!(CategoryTranslation; TwoParts; true; true),
    entity!(Product; OnePart; true; true),
    entity!(ProductTranslation; TwoParts; true; true),
    entity!(ProductCategory; TwoParts; true; true),
    entity!(ProductPrice; OnePart; true; true),
    entity!(Stream; OnePart; false; true),
    entity!(StreamFilter; OnePart; false; true),
    entity!(Rule; OnePart; false; true),
    entity!(RuleCondition; OnePart; false; true),
    entity!(Promotion; OnePart; false; true),
    entity!(PromotionDiscount; OnePart; false; true),
    entity!(ShippingMethod; OnePart; false; true),
    entity!(ShippingPrice; OnePart; false; true),
    entity!(Stock; OnePart; false; false),
    entity!(Cart; OnePart; false; true),
    entity!(CartLine; OnePart; false; true),
    entity!(CartCode; OnePart; false; true),
    entity!(Order; OnePart; false; false),
    entity!(OrderLine; TwoParts; false; false),
    entity!(OrderTax; TwoParts; false; false),
    entity!(Draft; OnePart; false; false),
    entity!(DraftCommit; TwoParts; false; false),
];

static LANGUAGE_FIELDS: [FieldInfo; 2] = [
    field!(1 Name; NAME; REQUIRED),
    field!(2 Parent; FieldKind::Id(Entity::Language); NONE),
];

static TAX_FIELDS: [FieldInfo; 2] = [
    field!(1 Name; NAME; REQUIRED),
    field!(2 Rate; FieldKind::Int { low: 0, high: 10_000 }; REQUIRED),
];

static CATEGORY_FIELDS: [FieldInfo; 3] = [
    field!(1 Parent; FieldKind::Id(Entity::Category); NONE),
    field!(2 Active; FieldKind::Flag; NONE; Preset::Flag(true)),
    field!(3 Position; FieldKind::Int { low: 0, high: 1_000_000 }; NONE; Preset::Int(0)),
];

static CATEGORY_TRANSLATION_FIELDS: [FieldInfo; 2] = [
    field!(1 Name; NAME; REQUIRED),
    field!(2 Description; FieldKind::Text { low: 0, high: 4_000 }; NONE),
];

static PRODUCT_FIELDS: [FieldInfo; 9] = [
    field!(1 Parent; FieldKind::Id(Entity::Product); NONE),
    field!(2 Number; CODE; REQUIRED_UNIQUE),
    field!(3 Active; FieldKind::Flag; NONE; Preset::Flag(true)),
    field!(4 Tax; FieldKind::Id(Entity::Tax); INHERITED),
    field!(5 Gross; MONEY; INHERITED),
    field!(6 Net; MONEY; INHERITED),
    field!(7 Weight; FieldKind::Int { low: 0, high: 1_000_000_000 }; INHERITED),
    field!(8 MinOrder; FieldKind::Int { low: 1, high: 10_000 }; INHERITED),
    field!(9 MaxOrder; FieldKind::Int { low: 1, high: 10_000 }; INHERITED),
];

static PRODUCT_TRANSLATION_FIELDS: [FieldInfo; 2] = [
    field!(1 Name; NAME; NONE),
    field!(2 Description; FieldKind::Text { low: 0, high: 4_000 }; NONE),
];

static PRODUCT_CATEGORY_FIELDS: [FieldInfo; 0] = [];

static PRODUCT_PRICE_FIELDS: [FieldInfo; 6] = [
    field!(1 Product; FieldKind::Id(Entity::Product); REQUIRED_FIXED_UNIQUE),
    field!(2 Rule; FieldKind::Id(Entity::Rule); REQUIRED_UNIQUE),
    field!(3 Low; FieldKind::Int { low: 1, high: 10_000 }; REQUIRED_UNIQUE),
    field!(4 High; FieldKind::Int { low: 1, high: 10_000 }; NONE),
    field!(5 Gross; MONEY; REQUIRED),
    field!(6 Net; MONEY; REQUIRED),
];

static STREAM_FIELDS: [FieldInfo; 1] = [field!(1 Name; NAME; REQUIRED)];

static STREAM_FILTER_FIELDS: [FieldInfo; 8] = [
    field!(1 Stream; FieldKind::Id(Entity::Stream); REQUIRED_FIXED),
    field!(2 Parent; FieldKind::Id(Entity::StreamFilter); FIXED),
    field!(3 Kind; FieldKind::Choice(Choice::FilterKind); REQUIRED),
    field!(4 Field; FieldKind::Choice(Choice::FilterField); NONE),
    field!(5 Value; FieldKind::Text { low: 0, high: 64 }; NONE),
    field!(6 Low; FieldKind::Int { low: 0, high: 1_000_000_000_000 }; NONE),
    field!(7 High; FieldKind::Int { low: 0, high: 1_000_000_000_000 }; NONE),
    field!(8 Category; FieldKind::Id(Entity::Category); NONE),
];

static RULE_FIELDS: [FieldInfo; 2] = [
    field!(1 Name; NAME; REQUIRED),
    field!(2 Priority; FieldKind::Int { low: 0, high: 1_000 }; NONE; Preset::Int(0)),
];

static RULE_CONDITION_FIELDS: [FieldInfo; 10] = [
    field!(1 Rule; FieldKind::Id(Entity::Rule); REQUIRED_FIXED),
    field!(2 Parent; FieldKind::Id(Entity::RuleCondition); FIXED),
    field!(3 Kind; FieldKind::Choice(Choice::ConditionKind); REQUIRED),
    field!(4 Low; FieldKind::Int { low: 0, high: 1_000_000_000_000_000_000 }; NONE),
    field!(5 High; FieldKind::Int { low: 0, high: 1_000_000_000_000_000_000 }; NONE),
    field!(6 FromDay; FieldKind::Day; NONE),
    field!(7 ToDay; FieldKind::Day; NONE),
    field!(8 Text; CODE; NONE),
    field!(9 Product; FieldKind::Loose; NONE),
    field!(10 Method; FieldKind::Loose; NONE),
];

static PROMOTION_FIELDS: [FieldInfo; 7] = [
    field!(1 Name; NAME; REQUIRED),
    field!(2 Active; FieldKind::Flag; NONE; Preset::Flag(true)),
    field!(3 Code; CODE; UNIQUE),
    field!(4 FromMoment; MOMENT; NONE),
    field!(5 UntilMoment; MOMENT; NONE),
    field!(6 Priority; FieldKind::Int { low: 0, high: 1_000 }; NONE; Preset::Int(0)),
    field!(7 Rule; FieldKind::Id(Entity::Rule); NONE),
];

static PROMOTION_DISCOUNT_FIELDS: [FieldInfo; 4] = [
    field!(1 Promotion; FieldKind::Id(Entity::Promotion); REQUIRED_FIXED),
    field!(2 Scope; FieldKind::Choice(Choice::DiscountScope); REQUIRED),
    field!(3 Kind; FieldKind::Choice(Choice::DiscountKind); REQUIRED),
    field!(4 Value; FieldKind::Int { low: 0, high: 1_000_000_000_000 }; REQUIRED),
];

static SHIPPING_METHOD_FIELDS: [FieldInfo; 4] = [
    field!(1 Name; NAME; REQUIRED),
    field!(2 Active; FieldKind::Flag; NONE; Preset::Flag(true)),
    field!(3 Tax; FieldKind::Id(Entity::Tax); REQUIRED),
    field!(4 Rule; FieldKind::Id(Entity::Rule); NONE),
];

static SHIPPING_PRICE_FIELDS: [FieldInfo; 7] = [
    field!(1 Method; FieldKind::Id(Entity::ShippingMethod); REQUIRED_FIXED),
    field!(2 Rule; FieldKind::Id(Entity::Rule); NONE),
    field!(3 By; FieldKind::Choice(Choice::PriceBy); REQUIRED),
    field!(4 Low; FieldKind::Int { low: 0, high: 1_000_000_000_000_000_000 }; NONE),
    field!(5 High; FieldKind::Int { low: 0, high: 1_000_000_000_000_000_000 }; NONE),
    field!(6 Gross; MONEY; REQUIRED),
    field!(7 Net; MONEY; REQUIRED),
];

static STOCK_FIELDS: [FieldInfo; 2] = [
    field!(1 Available; FieldKind::Int { low: 0, high: 2_000_000_000_000 }; REQUIRED),
    field!(2 Adjusted; FieldKind::Int { low: 0, high: 2_000_000_000_000 }; REQUIRED),
];

static CART_FIELDS: [FieldInfo; 7] = [
    field!(1 Language; FieldKind::Loose; NONE),
    field!(2 TaxState; FieldKind::Choice(Choice::TaxState); NONE; Preset::FirstWord),
    field!(3 TaxMode; FieldKind::Choice(Choice::TaxMode); NONE; Preset::FirstWord),
    field!(4 Interval; FieldKind::Interval; NONE; Preset::Int(1)),
    field!(5 Group; CODE; NONE),
    field!(6 Country; FieldKind::Text { low: 2, high: 2 }; NONE),
    field!(7 Method; FieldKind::Id(Entity::ShippingMethod); NONE),
];

static CART_LINE_FIELDS: [FieldInfo; 4] = [
    field!(1 Cart; FieldKind::Id(Entity::Cart); REQUIRED_FIXED_UNIQUE),
    field!(2 Product; FieldKind::Loose; REQUIRED_UNIQUE),
    field!(3 Quantity; FieldKind::Int { low: 1, high: 10_000 }; REQUIRED),
    field!(4 Position; FieldKind::Int { low: 0, high: 1_000_000 }; NONE; Preset::Int(0)),
];

static CART_CODE_FIELDS: [FieldInfo; 2] = [
    field!(1 Cart; FieldKind::Id(Entity::Cart); REQUIRED_FIXED_UNIQUE),
    field!(2 Code; CODE; REQUIRED_UNIQUE),
];

static ORDER_FIELDS: [FieldInfo; 6] = [
    field!(1 State; FieldKind::Choice(Choice::OrderState); REQUIRED),
    field!(2 Placed; MOMENT; REQUIRED),
    field!(3 TaxState; FieldKind::Choice(Choice::TaxState); REQUIRED),
    field!(4 Total; PLAIN; REQUIRED),
    field!(5 Tax; PLAIN; REQUIRED),
    field!(6 Rounding; PLAIN; REQUIRED),
];

static ORDER_LINE_FIELDS: [FieldInfo; 7] = [
    field!(1 Kind; FieldKind::Choice(Choice::LineKind); REQUIRED),
    field!(2 Product; FieldKind::Loose; NONE),
    field!(3 Label; NAME; REQUIRED),
    field!(4 Quantity; FieldKind::Int { low: 1, high: 10_000 }; REQUIRED),
    field!(5 Unit; PLAIN; REQUIRED),
    field!(6 Total; PLAIN; REQUIRED),
    field!(7 Rate; PLAIN; NONE),
];

static ORDER_TAX_FIELDS: [FieldInfo; 2] = [
    field!(1 Amount; FieldKind::Int { low: 0, high: 4_000_000_000_000_000_000 }; REQUIRED),
    field!(2 Tax; FieldKind::Int { low: 0, high: 4_000_000_000_000_000_000 }; REQUIRED),
];

static DRAFT_FIELDS: [FieldInfo; 3] = [
    field!(1 RootEntity; FieldKind::Choice(Choice::RootEntity); REQUIRED),
    field!(2 Root; FieldKind::Loose; REQUIRED),
    field!(3 Commits; FieldKind::Int { low: 0, high: 200_000 }; REQUIRED),
];

static DRAFT_COMMIT_FIELDS: [FieldInfo; 1] = [
    field!(1 Count; FieldKind::Int { low: 1, high: 1_000 }; REQUIRED),
];

/// The references, by the entity that refers. The lines and taxes of an order name it in their key
/// and go with it for good (`NeverDeleted`): they are no referrers to a look-up or a delete.
pub static REFERENCES: [Reference; 29] = [
    reference!(Language; Part::Field(2); Language; Restrict),
    reference!(Category; Part::Field(1); Category; Cascade),
    reference!(CategoryTranslation; Part::Id; Category; Cascade),
    reference!(CategoryTranslation; Part::Second; Language; Cascade),
    reference!(Product; Part::Field(1); Product; Cascade),
    reference!(Product; Part::Field(4); Tax; Restrict),
    reference!(ProductTranslation; Part::Id; Product; Cascade),
    reference!(ProductTranslation; Part::Second; Language; Cascade),
    reference!(ProductCategory; Part::Id; Product; Cascade),
    reference!(ProductCategory; Part::Second; Category; Cascade),
    reference!(ProductPrice; Part::Field(1); Product; Cascade),
    reference!(ProductPrice; Part::Field(2); Rule; Restrict),
    reference!(StreamFilter; Part::Field(1); Stream; Cascade),
    reference!(StreamFilter; Part::Field(2); StreamFilter; Cascade; 1),
    reference!(StreamFilter; Part::Field(8); Category; SetNull),
    reference!(RuleCondition; Part::Field(1); Rule; Cascade),
    reference!(RuleCondition; Part::Field(2); RuleCondition; Cascade; 1),
    reference!(Promotion; Part::Field(7); Rule; Restrict),
    reference!(PromotionDiscount; Part::Field(1); Promotion; Cascade),
    reference!(ShippingMethod; Part::Field(3); Tax; Restrict),
    reference!(ShippingMethod; Part::Field(4); Rule; Restrict),
    reference!(ShippingPrice; Part::Field(1); ShippingMethod; Cascade),
    reference!(ShippingPrice; Part::Field(2); Rule; Restrict),
    reference!(Stock; Part::Id; Product; Restrict),
    reference!(Cart; Part::Field(7); ShippingMethod; SetNull),
    reference!(CartLine; Part::Field(1); Cart; Cascade),
    reference!(CartCode; Part::Field(1); Cart; Cascade),
    reference!(OrderLine; Part::Id; Order; NeverDeleted),
    reference!(OrderTax; Part::Id; Order; NeverDeleted),
];

/// The entities whose rows have parents of their own entity.
pub static LEVEL_LIMITS: [LevelLimit; 5] = [
    level!(Language; 2),
    level!(Category; 32),
    level!(Product; 2),
    level!(StreamFilter; 8),
    level!(RuleCondition; 8),
];

/// The entities of which one owner may have but few rows.
pub static OWNER_LIMITS: [OwnerLimit; 5] = [
    owned!(StreamFilter; Part::Field(1); 64),
    owned!(RuleCondition; Part::Field(1); 64),
    owned!(CartLine; Part::Field(1); 100),
    owned!(CartCode; Part::Field(1); 20),
    owned!(OrderLine; Part::Id; 201),
];

/// How many rows an entity may have, all versions together.
pub const MOST_ROWS: u32 = 200_000;

/// The fields of an entity, in the order of their numbers.
#[tactic(auto, unfolding(crate::specs::Tables::fields_of))]
pub fn fields_of(entity: Entity) -> &'static [FieldInfo]
    ensures { result.now ≡ spec.fields_of entity }
{
    match entity {
        Entity::Language => &LANGUAGE_FIELDS,
        Entity::Tax => &TAX_FIELDS,
        Entity::Category => &CATEGORY_FIELDS,
        Entity::CategoryTranslation => &CATEGORY_TRANSLATION_FIELDS,
        Entity::Product => &PRODUCT_FIELDS,
        Entity::ProductTranslation => &PRODUCT_TRANSLATION_FIELDS,
        Entity::ProductCategory => &PRODUCT_CATEGORY_FIELDS,
        Entity::ProductPrice => &PRODUCT_PRICE_FIELDS,
        Entity::Stream => &STREAM_FIELDS,
        Entity::StreamFilter => &STREAM_FILTER_FIELDS,
        Entity::Rule => &RULE_FIELDS,
        Entity::RuleCondition => &RULE_CONDITION_FIELDS,
        Entity::Promotion => &PROMOTION_FIELDS,
        Entity::PromotionDiscount => &PROMOTION_DISCOUNT_FIELDS,
        Entity::ShippingMethod => &SHIPPING_METHOD_FIELDS,
        Entity::ShippingPrice => &SHIPPING_PRICE_FIELDS,
        Entity::Stock => &STOCK_FIELDS,
        Entity::Cart => &CART_FIELDS,
        Entity::CartLine => &CART_LINE_FIELDS,
        Entity::CartCode => &CART_CODE_FIELDS,
        Entity::Order => &ORDER_FIELDS,
        Entity::OrderLine => &ORDER_LINE_FIELDS,
        Entity::OrderTax => &ORDER_TAX_FIELDS,
        Entity::Draft => &DRAFT_FIELDS,
        Entity::DraftCommit => &DRAFT_COMMIT_FIELDS,
    }
}
