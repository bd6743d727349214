//! Texts of rules with their canonical form, worked out from the text.

// A text, and what is printed of it.
pub(crate) const PRINTED: [(&str, &str); 6] = [
    (
        "receipt goods(item=\"nail\";quantity=1);",
        "once receipt goods(item = \"nail\"; quantity = 1.000);\n",
    ),
    (
        "require goods(;quantity)>=-1.5+-2-head.limit code\"low\";control goods\n quantity ;",
        "once require goods(; quantity) >= -1.500 + -2.000 - head.limit code \"low\";\n\
         control goods quantity;\n",
    ),
    (
        "each line average goods(item=line.item;quantity=line.quantity,amount);\
         each line entry main(debit none,credit\"60\"(line.item,\"x\");-cost)when cost<>0;",
        "each line average goods(item = line.item; quantity = line.quantity, amount);\n\
         each line entry main(debit none, credit \"60\"(line.item, \"x\"); -cost) \
         when cost <> 0.00;\n",
    ),
    (
        "receipt goods(item=\"i\";quantity=total.quantity,amount=2.5)when head.warehouse=\"w\";",
        "once receipt goods(item = \"i\"; quantity = total.quantity, amount = 2.50) \
         when head.warehouse = \"w\";\n",
    ),
    (
        "turn sales(item=head.other;quantity=1)when 1<2;",
        "once turn sales(item = head.other; quantity = 1.000) when 1.000000 < 2.000000;\n",
    ),
    (
        "expense stock(warehouse=head.warehouse,item=\"i\",lot=point;amount=1)when head.limit>=0.5;",
        "once expense stock(warehouse = head.warehouse, item = \"i\", lot = point; amount = 1.00) \
         when head.limit >= 0.500;\n",
    ),
];

// The rules of a type in a sequence, in their canonical form.
pub(crate) const SALE: &str = "\
each line fifo stock(warehouse = head.warehouse, item = line.item; quantity = line.quantity, amount);
each line turn sales(item = line.item; quantity = line.quantity, amount = cost);
each line entry main(debit \"90\"(), credit \"10\"(line.item); cost);
";
