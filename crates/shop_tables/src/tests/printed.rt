//! What the tables print, for a reader to lay beside what the shop was asked to be.

/// A line for each entity and field, the marks `unique` of one entity standing for one rule.
pub(crate) const ENTITIES_AND_FIELDS: &str = "\
1 language: key of one part, written by operations
  1 language.name text 1..255 required
  2 language.parent id language
2 tax: key of one part, written by operations
  1 tax.name text 1..255 required
  2 tax.rate int 0..10000 required
3 category: key of one part, versions, written by operations
  1 category.parent id category
  2 category.active flag default true
  3 category.position int 0..1000000 default 0
4 category_translation: key of two parts, versions, written by operations
  1 category_translation.name text 1..255 required
  2 category_translation.description text 0..4000
5 product: key of one part, versions, written by operations
  1 product.parent id product
  2 product.number text 1..64 required unique
  3 product.active flag default true
  4 product.tax id tax inherited
  5 product.gross int 0..1000000000000 inherited
  6 product.net int 0..1000000000000 inherited
  7 product.weight int 0..1000000000 inherited
  8 product.min_order int 1..10000 inherited
  9 product.max_order int 1..10000 inherited
6 product_translation: key of two parts, versions, written by operations
  1 product_translation.name text 1..255
  2 product_translation.description text 0..4000
7 product_category: key of two parts, versions, written by operations
8 product_price: key of one part, versions, written by operations
  1 product_price.product id product required fixed unique
  2 product_price.rule id rule required unique
  3 product_price.low int 1..10000 required unique
  4 product_price.high int 1..10000
  5 product_price.gross int 0..1000000000000 required
  6 product_price.net int 0..1000000000000 required
9 stream: key of one part, written by operations
  1 stream.name text 1..255 required
10 stream_filter: key of one part, written by operations
  1 stream_filter.stream id stream required fixed
  2 stream_filter.parent id stream_filter fixed
  3 stream_filter.kind choice and or not equals range in_category required
  4 stream_filter.field choice gross net weight tax number active
  5 stream_filter.value text 0..64
  6 stream_filter.low int 0..1000000000000
  7 stream_filter.high int 0..1000000000000
  8 stream_filter.category id category
11 rule: key of one part, written by operations
  1 rule.name text 1..255 required
  2 rule.priority int 0..1000 default 0
12 rule_condition: key of one part, written by operations
  1 rule_condition.rule id rule required fixed
  2 rule_condition.parent id rule_condition fixed
  3 rule_condition.kind choice and or not amount count weight weekday day group country product method required
  4 rule_condition.low int 0..1000000000000000000
  5 rule_condition.high int 0..1000000000000000000
  6 rule_condition.from_day day
  7 rule_condition.to_day day
  8 rule_condition.text text 1..64
  9 rule_condition.product loose
  10 rule_condition.method loose
13 promotion: key of one part, written by operations
  1 promotion.name text 1..255 required
  2 promotion.active flag default true
  3 promotion.code text 1..64 unique
  4 promotion.from_moment int 0..250000000000
  5 promotion.until_moment int 0..250000000000
  6 promotion.priority int 0..1000 default 0
  7 promotion.rule id rule
14 promotion_discount: key of one part, written by operations
  1 promotion_discount.promotion id promotion required fixed
  2 promotion_discount.scope choice cart delivery required
  3 promotion_discount.kind choice absolute percent required
  4 promotion_discount.value int 0..1000000000000 required
15 shipping_method: key of one part, written by operations
  1 shipping_method.name text 1..255 required
  2 shipping_method.active flag default true
  3 shipping_method.tax id tax required
  4 shipping_method.rule id rule
16 shipping_price: key of one part, written by operations
  1 shipping_price.method id shipping_method required fixed
  2 shipping_price.rule id rule
  3 shipping_price.by choice count price weight required
  4 shipping_price.low int 0..1000000000000000000
  5 shipping_price.high int 0..1000000000000000000
  6 shipping_price.gross int 0..1000000000000 required
  7 shipping_price.net int 0..1000000000000 required
17 stock: key of one part
  1 stock.available int 0..2000000000000 required
  2 stock.adjusted int 0..2000000000000 required
18 cart: key of one part, written by operations
  1 cart.language loose
  2 cart.tax_state choice gross net free default gross
  3 cart.tax_mode choice horizontal vertical default horizontal
  4 cart.interval interval default 1
  5 cart.group text 1..64
  6 cart.country text 2..2
  7 cart.method id shipping_method
19 cart_line: key of one part, written by operations
  1 cart_line.cart id cart required fixed unique
  2 cart_line.product loose required unique
  3 cart_line.quantity int 1..10000 required
  4 cart_line.position int 0..1000000 default 0
20 cart_code: key of one part, written by operations
  1 cart_code.cart id cart required fixed unique
  2 cart_code.code text 1..64 required unique
21 order: key of one part
  1 order.state choice open in_progress completed cancelled required
  2 order.placed int 0..250000000000 required
  3 order.tax_state choice gross net free required
  4 order.total int -4000000000000000000..4000000000000000000 required
  5 order.tax int -4000000000000000000..4000000000000000000 required
  6 order.rounding int -4000000000000000000..4000000000000000000 required
22 order_line: key of two parts
  1 order_line.kind choice product discount delivery delivery_discount required
  2 order_line.product loose
  3 order_line.label text 1..255 required
  4 order_line.quantity int 1..10000 required
  5 order_line.unit int -4000000000000000000..4000000000000000000 required
  6 order_line.total int -4000000000000000000..4000000000000000000 required
  7 order_line.rate int -4000000000000000000..4000000000000000000
23 order_tax: key of two parts
  1 order_tax.amount int 0..4000000000000000000 required
  2 order_tax.tax int 0..4000000000000000000 required
24 draft: key of one part
  1 draft.root_entity choice product category required
  2 draft.root loose required
  3 draft.commits int 0..200000 required
25 draft_commit: key of two parts
  1 draft_commit.count int 1..1000 required
";

/// A line for each reference and limit.
pub(crate) const REFERENCES_AND_LIMITS: &str = "\
language.parent to language: restrict
category.parent to category: cascade
category_translation.id to category: cascade
category_translation.second to language: cascade
product.parent to product: cascade
product.tax to tax: restrict
product_translation.id to product: cascade
product_translation.second to language: cascade
product_category.id to product: cascade
product_category.second to category: cascade
product_price.product to product: cascade
product_price.rule to rule: restrict
stream_filter.stream to stream: cascade
stream_filter.parent to stream_filter: cascade, within the same stream
stream_filter.category to category: set null
rule_condition.rule to rule: cascade
rule_condition.parent to rule_condition: cascade, within the same rule
promotion.rule to rule: restrict
promotion_discount.promotion to promotion: cascade
shipping_method.tax to tax: restrict
shipping_method.rule to rule: restrict
shipping_price.method to shipping_method: cascade
shipping_price.rule to rule: restrict
stock.id to product: restrict
cart.method to shipping_method: set null
cart_line.cart to cart: cascade
cart_code.cart to cart: cascade
order_line.id to order: never deleted
order_tax.id to order: never deleted
language: 2 levels
category: 32 levels
product: 2 levels
stream_filter: 8 levels
rule_condition: 8 levels
stream_filter: 64 of one stream
rule_condition: 64 of one rule
cart_line: 100 of one cart
cart_code: 20 of one cart
order_line: 201 of one id
200000 rows of one entity
";
