//! The names of entities and fields, and the words that a field may choose from, as texts.
ghost use Rattle.std.specs.Prelude.{◌≡◌, map};
ghost use Rattle.shop_defs.specs.Texts.{choice_texts, entity_text, field_text};

use crate::entity::Entity;

/// The name of a field. Fields of several entities may share one.
#[derive(Drop, Clone, Copy)]
pub enum FieldName {
    Name,
    Parent,
    Rate,
    Active,
    Position,
    Description,
    Number,
    Tax,
    Gross,
    Net,
    Weight,
    MinOrder,
    MaxOrder,
    Product,
    Rule,
    Low,
    High,
    Stream,
    Kind,
    Field,
    Value,
    Category,
    Priority,
    FromDay,
    ToDay,
    Text,
    Method,
    Code,
    FromMoment,
    UntilMoment,
    Promotion,
    Scope,
    By,
    Available,
    Adjusted,
    Language,
    TaxState,
    TaxMode,
    Interval,
    Group,
    Country,
    Cart,
    Quantity,
    State,
    Placed,
    Total,
    Rounding,
    Label,
    Unit,
    Amount,
    RootEntity,
    Root,
    Commits,
    Count,
}

/// The words of which a field holds one.
#[derive(Drop, Clone, Copy)]
pub enum Choice {
    /// What a node of a stream's filters tests, or how it joins the nodes below it.
    FilterKind,
    /// What of a product a filter looks at.
    FilterField,
    /// What a node of a rule's conditions tests, or how it joins the nodes below it.
    ConditionKind,
    /// What a discount is taken off.
    DiscountScope,
    /// How a discount's amount is said.
    DiscountKind,
    /// What of a cart a price of delivery goes by.
    PriceBy,
    /// Which prices a cart has.
    TaxState,
    /// How a cart's tax is summed up.
    TaxMode,
    /// How far an order is.
    OrderState,
    /// What a line of an order is for.
    LineKind,
    /// What a draft edits.
    RootEntity,
}

/// The names of the entities, in the order of `Entity`.
static ENTITY_TEXTS: [&str; 25] = [
    "language",
    "tax",
    "category",
    "category_translation",
    "product",
    "product_translation",
    "product_category",
    "product_price",
    "stream",
    "stream_filter",
    "rule",
    "rule_condition",
    "promotion",
    "promotion_discount",
    "shipping_method",
    "shipping_price",
    "stock",
    "cart",
    "cart_line",
    "cart_code",
    "order",
    "order_line",
    "order_tax",
    "draft",
    "draft_commit",
];

/// The names of fields, in the order of `FieldName`.
static FIELD_TEXTS: [&str; 54] = [
    "name",
    "parent",
    "rate",
    "active",
    "position",
    "description",
    "number",
    "tax",
    "gross",
    "net",
    "weight",
    "min_order",
    "max_order",
    "product",
    "rule",
    "low",
    "high",
    "stream",
    "kind",
    "field",
    "value",
    "category",
    "priority",
    "from_day",
    "to_day",
    "text",
    "method",
    "code",
    "from_moment",
    "until_moment",
    "promotion",
    "scope",
    "by",
    "available",
    "adjusted",
    "language",
    "tax_state",
    "tax_mode",
    "interval",
    "group",
    "country",
    "cart",
    "quantity",
    "state",
    "placed",
    "total",
    "rounding",
    "label",
    "unit",
    "amount",
    "root_entity",
    "root",
    "commits",
    "count",
];

/// The name of an entity, as requests and replies spell it.
pub fn entity_name(entity: Entity) -> &'static str
    ensures { result.now ≡ entity_text entity }
{
    ENTITY_TEXTS[entity as usize]
}

impl FieldName {
    /// The name, as requests and replies spell it.
    pub fn text(self) -> &'static str
        ensures { result.now ≡ field_text self }
    {
        FIELD_TEXTS[self as usize]
    }
}

impl Choice {
    /// The words, the one that a default takes first.
    pub fn texts(self) -> &'static [&'static str]
        ensures { map (λ word. word.now) result.now ≡ choice_texts self }
    {
        match self {
            Choice::FilterKind => &["and", "or", "not", "equals", "range", "in_category"],
            Choice::FilterField => &["gross", "net", "weight", "tax", "number", "active"],
            Choice::ConditionKind => &[
                "and", "or", "not", "amount", "count", "weight", "weekday", "day", "group",
                "country", "product", "method",
            ],
            Choice::DiscountScope => &["cart", "delivery"],
            Choice::DiscountKind => &["absolute", "percent"],
            Choice::PriceBy => &["count", "price", "weight"],
            Choice::TaxState => &["gross", "net", "free"],
            Choice::TaxMode => &["horizontal", "vertical"],
            Choice::OrderState => &["open", "in_progress", "completed", "cancelled"],
            Choice::LineKind => &["product", "discount", "delivery", "delivery_discount"],
            Choice::RootEntity => &["product", "category"],
        }
    }
}
