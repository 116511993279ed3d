//! What a line costs.
ghost use Rattle.std.specs.Prelude.{◌≡◌};
ghost use Rattle.cart_process.specs.Causes.{cause_text};

/// What keeps a line from being ordered.
#[derive(Drop, Clone, Copy)]
pub(crate) enum Cause {
    /// There is no such product.
    Absent,
    /// The product, or its parent, isn't active.
    Inactive,
    /// The product has variants, of which one is to be chosen.
    HasVariants,
    /// The product has no price.
    NoPrice,
    /// The product has no tax.
    NoTax,
    /// There are too few pieces.
    BelowMin,
    /// There are too many pieces.
    AboveMax,
    /// The cart has no shipping method.
    NoMethod,
    /// The method is not active.
    MethodInactive,
    /// The rule of the method does not hold.
    MethodRefused,
    /// The method has no price for the cart.
    NoShippingPrice,
}

impl Cause {
    /// The name of the cause, as it is shown.
    pub(crate) fn text(self) -> &'static str
        ensures { result.now ≡ cause_text self }
    {
        match self {
            Cause::Absent => "absent",
            Cause::Inactive => "inactive",
            Cause::HasVariants => "has_variants",
            Cause::NoPrice => "no_price",
            Cause::NoTax => "no_tax",
            Cause::BelowMin => "below_min",
            Cause::AboveMax => "above_max",
            Cause::NoMethod => "no_method",
            Cause::MethodInactive => "method_inactive",
            Cause::MethodRefused => "method_refused",
            Cause::NoShippingPrice => "no_shipping_price",
        }
    }
}

/// What a line costs, and what keeps it from being ordered. All numbers are 0 where it has no price.
#[derive(Drop, Clone, Copy)]
pub(crate) struct LinePrice {
    /// The price of one piece, in minor units.
    pub(crate) unit: u64,
    /// The tax rate, in hundredths of a percent.
    pub(crate) rate: u32,
    /// How many pieces count.
    pub(crate) pieces: u64,
    /// Their weight in grams.
    pub(crate) weight: u64,
    /// What keeps the line from being ordered.
    pub(crate) cause: Option<Cause>,
}
