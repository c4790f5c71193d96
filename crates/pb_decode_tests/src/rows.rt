//! The rows, of the type `T` but where it is said: a verb, a name, the greatest length and depth (`-` for the greatest that there
//! is), and what the verb takes. Bytes are hexadecimal, `-` means none. An answer is written as [`answers`](super::answers) has it.

/// The bytes, and the answer.
pub(crate) const WORKED: &str = "
decode empty-text - - - = -
decode one-number - - 089601 = 089601
decode overlong-varint - - 08968100 = 089601
decode negative-in-five-bytes - - 08feffffff0f = 08feffffffffffffffff01
decode packed-and-single-elements - - 3206038e029ea7053001 = 3207038e029ea70501
decode empty-packed-list - - 3200 = -
decode messages-of-one-field-join - - 1a0208011a0312017a = 1a05080112017a
decode oneof-message-after-number - - 38054202080142025802 = 420408015802
decode oneof-number-between-messages - - 42020801380542025802 = 42025802
decode last-number-is-the-default - - 08050800 = -
decode negative-zero - - 210000000000000080 = 210000000000000080
decode positive-zero - - 210000000000000000 = -
decode entry-without-key - - 4a021007 = 4a040a001007
decode unknown-group - - a3010801a401 = a3010801a401
decode wrong-end - - a3010801ac01 ! 4 20[0] WrongEnd
decode group-cut-off - - a301 ! 2 20[0] Truncated
decode group-past-the-end - - 1a02a301 ! 4 3[0].20[0] PastEnd
decode bytes-for-a-number - - 0a0141 = 0a0141
decode stray-end - - 0c ! 0 - StrayEnd
decode number-zero - - 00 ! 0 - NumberZero
decode number-zero-of-a-bad-type - - 07 ! 0 - NumberZero
decode bad-type - - 0f ! 0 - BadType
decode tag-too-large - - 8080808010 ! 0 - TagTooLarge
decode as-deep-as-may-be - - 1ae9011ae6011ae3011ae0011add011ada011ad7011ad4011ad1011ace011acb011ac8011ac5011ac2011abf011abc011ab9011ab6011ab3011ab0011aad011aaa011aa7011aa4011aa1011a9e011a9b011a98011a95011a92011a8f011a8c011a89011a86011a83011a80011a7e1a7c1a7a1a781a761a741a721a701a6e1a6c1a6a1a681a661a641a621a601a5e1a5c1a5a1a581a561a541a521a501a4e1a4c1a4a1a481a461a441a421a401a3e1a3c1a3a1a381a361a341a321a301a2e1a2c1a2a1a281a261a241a221a201a1e1a1c1a1a1a181a161a141a121a101a0e1a0c1a0a1a081a061a041a021a00 = 1ae9011ae6011ae3011ae0011add011ada011ad7011ad4011ad1011ace011acb011ac8011ac5011ac2011abf011abc011ab9011ab6011ab3011ab0011aad011aaa011aa7011aa4011aa1011a9e011a9b011a98011a95011a92011a8f011a8c011a89011a86011a83011a80011a7e1a7c1a7a1a781a761a741a721a701a6e1a6c1a6a1a681a661a641a621a601a5e1a5c1a5a1a581a561a541a521a501a4e1a4c1a4a1a481a461a441a421a401a3e1a3c1a3a1a381a361a341a321a301a2e1a2c1a2a1a281a261a241a221a201a1e1a1c1a1a1a181a161a141a121a101a0e1a0c1a0a1a081a061a041a021a00
decode one-level-too-deep - - 1aec011ae9011ae6011ae3011ae0011add011ada011ad7011ad4011ad1011ace011acb011ac8011ac5011ac2011abf011abc011ab9011ab6011ab3011ab0011aad011aaa011aa7011aa4011aa1011a9e011a9b011a98011a95011a92011a8f011a8c011a89011a86011a83011a80011a7e1a7c1a7a1a781a761a741a721a701a6e1a6c1a6a1a681a661a641a621a601a5e1a5c1a5a1a581a561a541a521a501a4e1a4c1a4a1a481a461a441a421a401a3e1a3c1a3a1a381a361a341a321a301a2e1a2c1a2a1a281a261a241a221a201a1e1a1c1a1a1a181a161a141a121a101a0e1a0c1a0a1a081a061a041a021a00 ! 237 3[0].3[0].3[0].3[0].3[0].3[0].3[0].3[0].3[0].3[0].3[0].3[0].3[0].3[0].3[0].3[0].3[0].3[0].3[0].3[0].3[0].3[0].3[0].3[0].3[0].3[0].3[0].3[0].3[0].3[0].3[0].3[0].3[0].3[0].3[0].3[0].3[0].3[0].3[0].3[0].3[0].3[0].3[0].3[0].3[0].3[0].3[0].3[0].3[0].3[0].3[0].3[0].3[0].3[0].3[0].3[0].3[0].3[0].3[0].3[0].3[0].3[0].3[0].3[0].3[0].3[0].3[0].3[0].3[0].3[0].3[0].3[0].3[0].3[0].3[0].3[0].3[0].3[0].3[0].3[0].3[0].3[0].3[0].3[0].3[0].3[0].3[0].3[0].3[0].3[0].3[0].3[0].3[0].3[0].3[0].3[0].3[0].3[0].3[0].3[0].3[0] TooDeep
decode entry-as-deep-as-may-be - - 1ae9011ae6011ae3011ae0011add011ada011ad7011ad4011ad1011ace011acb011ac8011ac5011ac2011abf011abc011ab9011ab6011ab3011ab0011aad011aaa011aa7011aa4011aa1011a9e011a9b011a98011a95011a92011a8f011a8c011a89011a86011a83011a80011a7e1a7c1a7a1a781a761a741a721a701a6e1a6c1a6a1a681a661a641a621a601a5e1a5c1a5a1a581a561a541a521a501a4e1a4c1a4a1a481a461a441a421a401a3e1a3c1a3a1a381a361a341a321a301a2e1a2c1a2a1a281a261a241a221a201a1e1a1c1a1a1a181a161a141a121a101a0e1a0c1a0a1a081a061a041a026200 = 1aef011aec011ae9011ae6011ae3011ae0011add011ada011ad7011ad4011ad1011ace011acb011ac8011ac5011ac2011abf011abc011ab9011ab6011ab3011ab0011aad011aaa011aa7011aa4011aa1011a9e011a9b011a98011a95011a92011a8f011a8c011a89011a86011a83011a80011a7e1a7c1a7a1a781a761a741a721a701a6e1a6c1a6a1a681a661a641a621a601a5e1a5c1a5a1a581a561a541a521a501a4e1a4c1a4a1a481a461a441a421a401a3e1a3c1a3a1a381a361a341a321a301a2e1a2c1a2a1a281a261a241a221a201a1e1a1c1a1a1a181a161a141a121a101a0e1a0c1a0a1a081a06620408001200
decode number-inside-cut-off - - 1a050896 ! 4 3[0].1[0] Truncated
decode number-past-the-end - - 1a02089601 ! 3 3[0].1[0] PastEnd
decode length-past-the-end - - 1a021205 ! 3 3[0].2[0] PastEnd
decode element-past-the-end - - 32020396 ! 3 6[0] PastEnd
decode bad-text - - 120241ff ! 3 2[0] BadText
decode text-cut-off - - 120341ff ! 4 2[0] Truncated
decode varint-too-long - - 08ffffffffffffffffffff ! 1 1[0] VarintTooLong
decode longest-varint - - 08ffffffffffffffffff7f = 08ffffffffffffffffff01
decode length-too-large - - 12ffffffff0f ! 1 2[0] LengthTooLarge
decode longest-payload-cut-off - - 12ffffffff07 ! 6 2[0] Truncated
decode input-too-large 2 - 089601 ! 2 - InputTooLarge
decode cut-off-at-the-limit 2 - 0896 ! 2 1[0] Truncated
decode refused-before-the-limit 2 - 0f0000 ! 0 - BadType
decode many-fields - - 08960112017a1a0208012100000000000000803202030438054a050a016b10075000580162020803a3010801a401 = 08960112017a1a0208012100000000000000803202030438054a050a016b100750005801620408031200a3010801a401
decode whole-1 - - 1a061a041a020805 = 1a061a041a020805
decode whole-2 - - 0f05 ! 0 - BadType
decode whole-3 - - 1a020f05 ! 2 3[0] BadType
decode whole-4 - - 1a041a020f05 ! 4 3[0].3[0] BadType
decode whole-5 - - 1a061a041a020f05 ! 6 3[0].3[0].3[0] BadType
decode whole-6 - 2 1a061a041a020805 ! 4 3[0].3[0].3[0] TooDeep
decode whole-7 - 3 1a061a041a020805 = 1a061a041a020805
decode whole-8 - - 1a061a041a0208 ! 7 3[0].3[0].3[0].1[0] Truncated
decode whole-9 - - 1a041a0208051a041a025001 = 1a061a0408055001
decode whole-10 - - 1a0208051a030f0000 ! 6 3[1] BadType
decode whole-11 - - 1a081a0208051a025001 = 1a061a0408055001
decode whole-12 - - 38014202080542025001 = 420408055001
decode whole-13 - - 42020805380142025001 = 42025001
decode whole-14 - - 1a084202080542025001 = 1a06420408055001
decode whole-15 - - 6206080112020805 = 6206080112020805
decode whole-16 - - 620a08011202080512025001 = 62080801120408055001
decode whole-17 - - 6206080112020f05 ! 6 12[0].2[0] BadType
decode whole-18 - - 1a041b1c0805 = 1a0408051b1c
decode whole-19 - - 1a041b1c08051a025001 = 1a06080550011b1c
decode whole-20 - - 1a05a006010805 = 1a050805a00601
decode whole-21 - - 1a06320201023003 = 1a053203010203
decode whole-22 - - 1a0432020180 ! 5 3[0].6[0] PastEnd
decode whole-23 - - 1a041202ff41 ! 4 3[0].2[0] BadText
decode whole-24 - 0 1a020805 ! 0 3[0] TooDeep
decode whole-25 - 1 6206080112020805 = 6206080112020805
decode whole-26 - 1 6208080112041a020805 ! 6 12[0].2[0].3[0] TooDeep
decode entries-1 - - 4a050a016110014a050a01621002 = 4a050a016110014a050a01621002
decode entries-2 - - 4a050a016210024a050a01611001 = 4a050a016110014a050a01621002
decode entries-3 - - 4a050a016110014a050a016210024a050a01611003 = 4a050a016110034a050a01621002
decode entries-4 - - 4a0510020a01614a050a01621001 = 4a050a016110024a050a01621001
decode entries-5 - - 4a0a0a01610a0162100110024a050a01631001 = 4a050a016210024a050a01631001
decode entries-6 - - 4a180a0161100118032201ff29000000000000000035000000004a050a01621002 = 4a050a016110014a050a01621002
decode entries-7 - - 4a070a01611b1c10014a050a01621002 = 4a050a016110014a050a01621002
decode entries-8 - - 4a050a0161100108054a050a0162100208064a050a01611003 = 08064a050a016110034a050a01621002
decode entries-9 - - 4a04080510024a050a01611001 = 4a040a0010024a050a01611001
decode entries-10 - - 4a060a01611201784a050a01621002 = 4a050a016110004a050a01621002
decode entries-11 - - 4a050a016110014a050a01ff1002 ! 11 9[1].1[0] BadText
decode entries-12 - - 4a050a016110014a040a016110024a050a01621002 ! 13 9[1].2[0] PastEnd
decode entries-13 - - 4a004a050a016110014a00 = 4a040a0010004a050a01611001
decode entries-14 - 0 4a050a01611001 ! 0 9[0] TooDeep
decode entries-15 - 1 4a050a016110014a050a01621002 = 4a050a016110014a050a01621002
decode entries-16 - - 4a050a016110014a050a016210 ! 13 9[1].2[0] Truncated
decode entries-17 - - 4a070a016118031003 = 4a050a01611003
decode entries-18 - - 6204080112004a050a016110016204080212004a050a01621002 = 4a050a016110014a050a01621002620408011200620408021200
decode entries-19 - - 4a060a02626210014a060a02616110024a060a02636310034a060a02626210044a060a02616110054a060a02636310064a060a02626210074a060a02616110084a060a02636310094a060a026262100a4a060a026161100b4a060a026363100c4a060a026262100d4a060a026161100e4a060a026363100f4a060a02626210104a060a0261611011 = 4a060a02616110114a060a02626210104a060a026363100f
decode entries-20 - - 4a060a02626210014a060a02616110024a060a02636310034a060a02626210044a060a02616110054a060a02636310064a060a02626210074a060a02616110084a060a02636310094a060a026262100a4a060a026161100b4a060a026363100c4a060a026262100d4a060a026161100e4a060a026363100f4a060a026262101008054a060a02616110214a060a0264641022 = 08054a060a02616110214a060a02626210104a060a026363100f4a060a0264641022
decode entries-21 - - 4a060a02626210014a060a02616110024a060a02636310034a060a02626210044a060a02616110054a060a02636310064a060a02626210074a060a02616110084a061081808080004a060a04646464644a060a02636310094a060a026262100a4a060a026161100b4a060a026363100c4a060a026262100d4a060a026161100e4a060a026363100f4a060a0262621010 = 4a040a0010014a060a026161100e4a060a02626210104a060a026363100f4a080a04646464641000
decode entries-22 - - 4a060a02626210014a060a02616110024a060a02636310034a060a02626210044a060a02616110054a060a02636310064a060a02626210074a060a02616110084a060a02636310094a060a026262100a4a060a026161100b4a060a026363100c4a060a026262100d4a060a026161100e4a060a026363100f4a060a02626210104a060a02616110114a060a02616110 ! 143 9[17].2[0] Truncated
decode entries-23 - - 4a060a02626210014a060a02616110024a060a02636310034a060a02626210044a060a02616110054a060a02636310064a060a02626210074a060a02616110084a060a02636310094a060a026262100a4a060a026161100b4a060a026363100c4a060a026262100d4a060a026161100e4a060a026363100f4a060a02626210104a080a0261611b1c10074a060a02626210214a060a02616110224a060a02636310234a060a02626210244a060a02616110254a060a02636310264a060a02626210274a060a02616110284a060a02636310294a060a026262102a4a060a026161102b4a060a026363102c4a060a026262102d4a060a026161102e4a060a026363102f4a060a02626210304a080a0261611b1c1008 = 4a060a02616110084a060a02626210304a060a026363102f
decode nesting-1 - - 62060801120208016206080112025801 = 6206080112025801
decode nesting-2 - - 620a08011202080112025801 = 62080801120408015801
decode nesting-3 - - 4a050a016210014a050a01611002 = 4a050a016110024a050a01621001
decode nesting-4 - - 4a070a016b10071801 = 4a050a016b1007
decode nesting-5 - - 4a020805 = 4a040a001000
decode nesting-6 - - 4a031b1007 ! 5 9[0].3[0] PastEnd
decode nesting-7 - - 4a030a01ff ! 4 9[0].1[0] BadText
decode nesting-8 - - 4201083805 ! 3 8[0].1[0] PastEnd
decode nesting-9 - - 420208013805 = 3805
decode nesting-10 - 0 1a00 ! 0 3[0] TooDeep
decode nesting-11 - - 6206080112020801620408011200 = 620408011200
decode occurrences-1 - - 1a050896 ! 4 3[0].1[0] Truncated
decode occurrences-2 - - 1a0208011a031201ff ! 8 3[1].2[0] BadText
decode occurrences-3 - - 300132020396 ! 5 6[1] PastEnd
decode occurrences-4 - - 0801a30108010802ac01 ! 8 20[0] WrongEnd
";

/// The same of the type `F`.
pub(crate) const FLAT: &str = "
decode flat_types-1 - - 72020102 = 70017002
decode flat_types-2a - - 850100000080 = 850100000080
decode flat_types-2b - - 850100000000 = -
decode flat_types-3 - - 8801ffffffff0f = 8801ffffffffffffffffff01
decode flat_types-4 - - 880105 = 880105
decode flat_types-5 - - 6a006a0178 = 6a006a0178
decode flat_types-6 - - 508080808010 = 5001
decode flat_types-7 - - 58ffffffff1f = 58ffffffff0f
decode flat_types-8 - - a006010805a00602 = 0805a00601a00602
decode flat_types-9 - - 1201ff12017a ! 2 2[0] BadText
decode flat_types-10 - - 92010501000000 ! 7 18[0] PastEnd
";

/// The same of the type `Q`.
pub(crate) const CLOSED: &str = "
decode proto2-1 - - 0800 = 0800
decode proto2-2 - - 12020102 = 10011002
decode proto2-3 - - 1b08051c1b08061c = 1b08061c
decode proto2-4 - - 1a020805 = 1a020805
decode proto2-5 - - 20072002 = 20022007
decode proto2-6 - - 208180808010 = 2001
decode proto2-7 - - 208780808010 = 208780808010
decode proto2-8 - - 2a0401070209 = 2a02010228072809
decode proto2-9 - - 1b0896 ! 3 3[0].1[0] Truncated
decode proto2-10 - - 1b24 ! 1 3[0] WrongEnd
decode proto2-11 - - 1b08051c2002 = 1b08051c2002
decode groups_by_long_tags - - 9b0008059c009b0008069c00 = 1b08061c
decode undeclared_alone - - 2807 = 2807
decode undeclared_list - - 2a020709 = 28072809
decode declared_elements - - 280228012a0101 = 2a03020101
decode list_cut - - 2a040107 ! 4 5[0] Truncated
decode third_list_cut - - 2a0107280a2a0196 ! 7 5[2] PastEnd
decode empty_list - - 2a00 = -
decode undeclared_first - - 2a03070102 = 2a0201022807
decode undeclared_last - - 2a03010207 = 2a0201022807
decode undeclared_run - - 2a050107090702 = 2a020102280728092807
decode undeclared_negative - - 2a0cffffffffffffffffff010102 = 2a02010228ffffffffffffffffff01
decode undeclared_negative_last - - 2a0b01ffffffffffffffffff01 = 2a010128ffffffffffffffffff01
decode undeclared_spelled_long - - 2a03018700 = 2a01012807
decode undeclared_beyond_32_bits - - 2a06018780808010 = 2a0101288780808010
decode declared_beyond_32_bits - - 2a06078180808010 = 2a01012807
decode undeclared_in_two_lists - - 2a0201072a020902 = 2a02010228072809
decode undeclared_behind_others - - 580128072a03010907 = 2a01015801280728092807
decode undeclared_cut - - 2a04010709 ! 5 5[0] Truncated
decode undeclared_negative_cut - - 2a0c07ffff ! 5 5[0] Truncated
decode undeclared_past_end - - 2a020796 ! 3 5[0] PastEnd
decode undeclared_too_long - - 2a0b07ffffffffffffffffffff ! 3 5[0] VarintTooLong
decode unknown_group_in_group - - 1b5b08015c1c = 1b5b08015c1c
decode group_cut - - 1b ! 1 3[0] Truncated
decode second_group_cut - - 1b1c1b0896 ! 5 3[1].1[0] Truncated
decode wrong_type_in_group - - 1b0a01411c = 1b0a01411c
onto group_goes_on - - 1b08051c 1b1c = 1b08051c
onto closed_list_goes_on - - 2a03010702 2a020901 = 2a0301020128072809
onto undeclared_number_leaves_it - - 2002 2007 = 20022007
onto undeclared_numbers_are_added - - 2a03010702 2a0407090102 = 2a0401020102280728072809
onto list_cut - - 2a0107 2a0107280a2a0196 ! 7 5[2] PastEnd
merge closed_enums - - 2002200728012809 20082a0102 = 20022a020102200728092008
merge groups - - 1b08051c 1b08061c = 1b08061c
push group - - 0 2 1b ok
push number_in_group - - 1 2 1b,0896 ok;ok
push group_ends - - 0 1 1b0805,1c ok;ok
push closed_list - - 0 2 2a04,01,07 ok;ok;ok
push closed_list_ends - - 0 1 2a0401,0702,09 ok;ok;ok
push undeclared_number_cut - - 3 2 2a0c07ff,ffff ok;ok
push undeclared_list_ends - - 0 1 2a0407,0901,07 ok;ok;ok
push wrong_end - - 0 0 1b,24 ok;! 1 3[0] WrongEnd
push finished_in_a_group - - 0 0 1b08,05,finish ok;ok;! 3 3[0] Truncated
frame group_past_its_end - - 1 3 1b08051c ? ! 4 3[0] PastEnd
frame whole_group - - 1 4 1b08051c 0 = 1b08051c
";

/// The same of the type `R`.
pub(crate) const GROUPS: &str = "
decode list_of_groups - - 0b10050c0b0c = 0b10050c0b0c
decode group_in_oneof - - 20051b08011c = 1b08011c
decode group_leaves_oneof - - 1b08011c2005 = 2005
decode group_goes_on - - 1b08011c1b1c = 1b08011c
decode group_begins_anew - - 1b08011c20051b1c = 1b1c
decode message_in_group - - 0b0a0220050c = 0b0a0220050c
decode message_in_group_goes_on - - 0b0a0220050a0428010b0c0c = 0b0a060b0c200528010c
decode group_at_its_known_end - - 0b0a011b0c ! 4 1[0].1[0].3[0] PastEnd
decode end_in_a_message - - 0b0a010c0c ! 3 1[0].1[0] StrayEnd
decode wrong_end - - 0b14 ! 1 1[0] WrongEnd
decode stray_end - - 0c ! 0 - StrayEnd
decode group_in_group - - 0b0a020b0c0c = 0b0a020b0c0c
decode second_element - - 0b0c0b0a021b1c0b ! 8 1[1].1[1] Truncated
decode too_deep - 0 0b0c ! 0 1[0] TooDeep
decode deep_enough - 1 0b0c = 0b0c
decode message_too_deep - 1 0b0a000c ! 1 1[0].1[0] TooDeep
decode closed_list - - 28012807 = 28012807
decode packed_spelling - - 2a020107 = 28012807
decode undeclared_in_message - - 0b0a052a030701020c = 0b0a062801280228070c
decode undeclared_run_in_message - - 0b0a042a0207090c = 0b0a04280728090c
decode undeclared_negative_in_message - - 0b0a0d2a0b01ffffffffffffffffff010c = 0b0a0d280128ffffffffffffffffff010c
decode undeclared_in_entry - - 3209080112052a03070102 = 320a08011206280128022807
decode undeclared_cut_in_message - - 0b0a042a0207 ! 6 1[0].1[0].5[0] Truncated
decode undeclared_past_end_in_message - - 0b0a042a0207960c ! 6 1[0].1[0].5[0] PastEnd
decode group_again - - 1b08011c1b08021c = 1b08021c
decode group_by_length - - 0a001a00 = 0a001a00
decode group_for_a_message - - 0b0b0c0c = 0b0b0c0c
decode unknown_group - - 5b1b08051c5c = 5b1b08051c5c
decode no_text_in_unknown_group - - 5b2a01ff5c = 5b2a01ff5c
decode group_in_entry - - 3206080112021b1c = 3206080112021b1c
decode group_for_a_value - - 32021314 = 320408001200
decode group_at_end_of_entry - - 3205080112011b ! 7 6[0].2[0].3[0] PastEnd
decode declared_member - - 3801 = 3801
decode undeclared_member - - 38013807 = 38013807
decode undeclared_beside_group - - 1b08011c3807 = 1b08011c3807
decode undeclared_ends_no_run - - 1b08011c38071b1c = 1b08011c3807
decode declared_ends_a_run - - 1b08011c38011b1c = 1b1c
decode undeclared_beside_number - - 20053807 = 20053807
decode group_in_message_in_group - - 0b0a060b1b08051c0c0c = 0b0a060b1b08051c0c0c
decode group_in_message_too_deep - 3 0b0a060b1b08051c0c0c ! 4 1[0].1[0].1[0].3[0] TooDeep
decode group_in_message_deep_enough - 4 0b0a060b1b08051c0c0c = 0b0a060b1b08051c0c0c
decode wrong_end_in_message_in_group - - 0b0a040b1b0c0c0c ! 5 1[0].1[0].1[0].3[0] WrongEnd
decode group_goes_on_in_message - - 0b0a081b08011c1b08021c0c = 0b0a041b08021c0c
decode groups_of_a_list_in_message - - 0b0a080b10010c0b10020c0c0b0c = 0b0a080b10010c0b10020c0c0b0c
decode group_past_end_of_message - - 0b0a030b1b1c0c0c ! 6 1[0].1[0].1[0] PastEnd
decode unknown_group_in_message - - 0b0a065b080513145c0c = 0b0a065b080513145c0c
decode unknown_group_before_group - - 0b0a085b08055c1b08011c0c = 0b0a081b08011c5b08055c0c
decode wrong_end_of_unknown_group - - 0b0a045b0805640c ! 6 1[0].1[0].11[0] WrongEnd
decode unknown_group_too_deep - 2 0b0a025b5c0c ! 3 1[0].1[0].11[0] TooDeep
decode unknown_group_deep_enough - 3 0b0a025b5c0c = 0b0a025b5c0c
decode undeclared_in_message_in_group - - 0b0a042a0201070c0b10050c = 0b0a04280128070c0b10050c
decode bad_text_behind_groups - - 0b1b08011c0c0b0a070b1b2a01ff1c0c0c ! 13 1[1].1[0].1[0].3[0].5[0] BadText
fronts groups_and_messages - - 0b0a0a0b1b08051c0c5b08015c100a0c1b08011c
push group_in_oneof - - 0 2 3801,1b ok;ok
onto undeclared_member - - 1b08011c 38071b1c = 1b08011c3807
";

/// The same of groups in groups.
pub(crate) const NESTED: &str = "
decode group_in_typed_group - - 0b1b08051c0c = 0b1b08051c0c
decode three_groups - - 0b1b1b08051c1c0c = 0b1b1b08051c1c0c
decode list_in_group - - 0b1b1b1c1b08011c1c0c = 0b1b1b1c1b08011c1c0c
decode group_in_group_goes_on - - 0b1b08011c1b10011c0c = 0b1b080110011c0c
decode list_in_group_goes_on - - 0b1b1b1c1c1b1b08011c1c0c = 0b1b1b1c1b08011c1c0c
decode groups_of_a_list_stay_apart - - 0b1b08011c0c0b1b10011c0c = 0b1b08011c0c0b1b10011c0c
decode undeclared_in_group - - 0b1b10071c0c = 0b1b10071c0c
decode undeclared_before_declared - - 0b1b100710011c0c = 0b1b100110071c0c
decode text_in_group - - 0b1b2a01411c0c = 0b1b2a01411c0c
decode bad_text_in_group - - 0b1b2a01ff1c0c ! 4 1[0].3[0].5[0] BadText
decode end_of_the_group_around - - 0b1b0c ! 2 1[0].3[0] WrongEnd
decode end_of_another_group - - 0b1b1b24 ! 3 1[0].3[0].3[0] WrongEnd
decode cut_in_three_groups - - 0b1b1b0896 ! 5 1[0].3[0].3[0].1[0] Truncated
decode second_of_each - - 0b0c0b1b1c1b1b1c1b0896 ! 11 1[1].3[1].3[1].1[0] Truncated
decode third_group_too_deep - 2 0b1b1b1c1c0c ! 2 1[0].3[0].3[0] TooDeep
decode three_levels - 3 0b1b1b1c1c0c = 0b1b1b1c1c0c
push three_groups - - 0 4 0b1b1b ok
push third_group_ends - - 0 3 0b1b1b,1c ok;ok
push number_in_three_groups - - 1 4 0b1b,1b0896 ok;ok
push end_of_the_group_around - - 0 0 0b1b,0c ok;! 2 1[0].3[0] WrongEnd
onto list_of_groups - - 0b1b08011c0c 0b1b10011c0c = 0b1b08011c0c0b1b10011c0c
frame three_groups - - 1 6 0b1b1b1c1c0cff 1 = 0b1b1b1c1c0c
frame group_at_its_end - - 1 5 0b1b1b1c1c0c ? ! 6 1[0] PastEnd
";

/// The same of the type `N`, to which every record and group is unknown: those that `pb_wire` reads.
pub(crate) const RECORDS: &str = "
decode faults-1 - - - = -
decode faults-2 - - 0c ! 0 - StrayEnd
decode faults-3 - - 00 ! 0 - NumberZero
decode faults-4 - - 07 ! 0 - NumberZero
decode faults-5 - - 0f ! 0 - BadType
decode faults-6 - - 8080808010 ! 0 - TagTooLarge
decode faults-7 - - 808080801000 ! 0 - TagTooLarge
decode faults-8 - - 08ffffffffffffffffffff ! 1 1[0] VarintTooLong
decode faults-9 - - 08ffffffffffffffffff7f = 08ffffffffffffffffff01
decode faults-10 - - 12ffffffff0f ! 1 2[0] LengthTooLarge
decode faults-11 - - 12ffffffff07 ! 6 2[0] Truncated
decode faults-12 - - 0896 ! 2 1[0] Truncated
decode faults-13 - - 80 ! 1 - Truncated
decode faults-14 - - 120541 ! 3 2[0] Truncated
decode faults-15 - - 0d010203 ! 4 1[0] Truncated
decode faults-16 - - 09010203 ! 4 1[0] Truncated
decode faults-17 - - a301 ! 2 20[0] Truncated
decode faults-18 - - a3010801ac01 ! 4 20[0] WrongEnd
decode faults-19 - - 0b130c ! 2 1[0].2[0] WrongEnd
decode faults-20 - - 0b0c0c ! 2 - StrayEnd
decode faults-21 - - 0b ! 1 1[0] Truncated
decode faults-22 - 1 0b13 ! 1 1[0].2[0] TooDeep
decode faults-23 - 0 0b0c ! 0 1[0] TooDeep
decode faults-24 - 1 0b0c = 0b0c
decode faults-25 2 100 089601 ! 2 - InputTooLarge
decode faults-26 2 100 0896 ! 2 1[0] Truncated
decode faults-27 2 100 0f0000 ! 0 - BadType
decode faults-28 2 100 080508 ! 2 - InputTooLarge
decode faults-29 0 100 08 ! 0 - InputTooLarge
decode faults-30 0 0 - = -
decode faults-31 1 100 0805 ! 1 - InputTooLarge
decode faults-32 - - 0801a30108010802ac01 ! 8 20[0] WrongEnd
decode faults-33 - - 080110010896 ! 6 1[1] Truncated
decode faults-34 - - 08010d000000000b0c0896 ! 11 1[3] Truncated
decode faults-35 - - 0b08010c0b100108011096 ! 11 1[1].2[1] Truncated
decode faults-36 - - 0a000b1314130c ! 6 1[1].2[1] WrongEnd
decode faults-37 - 1 0b0c0b13140c ! 3 1[1].2[0] TooDeep
decode stray_end - - 08050c ! 2 - StrayEnd
decode wrong_end - - 0b080114 ! 3 1[0] WrongEnd
decode cut_in_groups - - 08050b13 ! 4 1[1].2[0] Truncated
decode group_and_more 2 - 0b0c0c ! 2 - InputTooLarge
decode long_group 2 - 0b08010c ! 2 - InputTooLarge
decode no_groups - 0 08050b0c ! 2 1[1] TooDeep
decode group_too_deep - 1 0b13140c ! 1 1[0].2[0] TooDeep
decode two_levels - 2 0b131413140c = 0b131413140c
decode each_form - - 0896810012017aa3010801a4013d01000000090100000000000080 = 08960112017aa3010801a4013d01000000090100000000000080
decode number_and_bytes - - 0896011203616263 = 0896011203616263
decode group_and_number - - a3010801a4010805 = a3010801a4010805
decode fixed_widths - - 2d01000000090100000000000000 = 2d01000000090100000000000000
decode groups_in_groups - - 0b130801140c1a00 = 0b130801140c1a00
decode long_number - - 08968100f807ffffffff0f = 089601f807ffffffff0f
";

/// The bytes of a message, those that come onto it, and the answer. Lengths and places are those of the new bytes alone.
pub(crate) const ONTO: &str = "
onto default-behind-a-number - - 0805 0800 = -
onto streams-o1 - - 42020801 42025802 = 420408015802
onto streams-o2 - - 42020801 380542025802 = 42025802
onto streams-o3 - - 42020801 08 ! 1 1[0] Truncated
onto a_last_value_wins - - 0805 0806 = 0806
onto elements_are_added - - 320101 320102 = 32020102
onto entries_are_replaced - - 6206080112020801 6206080112025801 = 6206080112025801
onto entries_are_added - - 4a050a016b1007 4a050a016a1008 = 4a050a016a10084a050a016b1007
onto unknown_records_are_added - - a00601 a00602 = a00601a00602
onto messages_go_on - - 1a020801 1a0312017a = 1a05080112017a
onto nothing_onto_it - - 089601 - = 089601
onto long_message 2 - 08960112017a 0805 = 080512017a
onto long_bytes 2 - - 089601 ! 2 - InputTooLarge
onto occurrences_begin_anew - - 1a0208011a020801 1a0212ff ! 3 3[0].2[0] PastEnd
";

/// The bytes of a message and of the one that comes over it, and the answer.
pub(crate) const MERGES: &str = "
merge default-of-another-message - - 0805 0800 = 0805
merge streams-m1 - - 42020801 3805 = 3805
merge streams-m2 - - 42020801 42025802 = 420408015802
merge streams-m3 - - 320101 320102 = 32020102
merge streams-m4 - - 6206080112020801 6206080112025801 = 6206080112025801
merge streams-m5 - - 0805 - = 0805
";

/// How many bytes are held and how many contexts are open at last (`?` where the row doesn't say), the pieces, and the answer to each.
pub(crate) const PIECES: &str = "
push push-1 - - 1 ? 0896 ok
push push-2 - - 1 ? 120541 ok
push push-3 - - 0 2 1a0508 ok
push push-4 - - ? ? 1a020896 ! 3 3[0].1[0] PastEnd
push push-5 - - ? ? 1a0421 ! 3 3[0].4[0] PastEnd
push push-6 2 - ? ? 08,96,01 ok;ok;! 2 - InputTooLarge
push push-7 - - ? ? 0c,08,finish ! 0 - StrayEnd;finished;finished
push push-8 - - ? ? 08,01,finish,finish ok;ok;= 0801;finished
push eight_bytes - - 4 1 2100000000 ok
push varint_of_ten - - 9 1 08ffffffffffffffffff ok
push tag_of_two - - 1 1 a3 ok
push length_of_two - - 1 1 12ff ok
push text_in_three - - 3 1 1205,61,6263 ok;ok;ok
push whole_text - - 0 1 1203,61,6263 ok;ok;ok
push unknown_bytes - - 2 1 aa0603,0102 ok;ok
push packed_list - - 0 2 3203,01 ok;ok
push element_of_two - - 1 2 32030196 ok
push packed_list_ends - - 0 1 320201,02 ok;ok
push message_ends - - 0 1 1a02,0801 ok;ok
push two_levels - - 0 3 1a061a04,0801 ok;ok
push entry_and_message - - 0 3 620608011202 ok
push entry_ends - - 0 1 6204080112,00 ok;ok
push entry_key - - 1 2 4a050a026b ok
push group - - 0 2 a301 ok
push group_in_group - - 0 3 a301a301,0801 ok;ok
push group_ends - - 0 1 a3010801a4,01 ok;ok
push list_in_message - - 1 3 1a0532030196 ok
push empty_pieces - - 1 1 -,08,-,96,- ok;ok;ok;ok;ok
push told_in_the_second - - 0 0 1a04,21,08 ok;! 3 3[0].4[0] PastEnd;finished
push text_told_at_its_end - - 0 0 1203,61ff,62 ok;ok;! 3 2[0] BadText
push finished_in_a_text - - 0 0 1203,61,finish ok;ok;! 3 2[0] Truncated
push finished_in_a_message - - 0 0 1a04,0801,finish ok;ok;! 4 3[0] Truncated
push finished_at_once - - 0 0 finish,08,finish = -;finished;finished
";

/// The place of the frame's first byte, its size, the bytes of the input, how many of them are left (`?` where the row doesn't say), and
/// the answer.
pub(crate) const FRAMES: &str = "
frame first_of_three - - 1 3 0896010002 2 = 089601
frame second_of_three - - 1 0 0208 2 = -
frame cut_at_the_end - - 1 2 08 ? ! 2 1[0] Truncated
frame value_past_its_end - - 1 1 0805 ? ! 2 1[0] PastEnd
frame group_at_its_end - - 1 2 a301a401 ? ! 3 20[0] PastEnd
frame inside_a_message - - 1 4 1a02089601 ? ! 4 3[0].1[0] PastEnd
frame length_past_its_end - - 2 3 1a0208 ? ! 3 3[0] PastEnd
frame ends_inside_a_message - - 1 4 1a0208 ? ! 4 3[0].1[0] Truncated
frame longer_length - - 2 3 12017affff 2 = 12017a
frame starts_at_0 - - 0 2 080500 1 = 0805
frame starts_at_10 - - 10 2 0c08 ? ! 10 - StrayEnd
frame second_of_a_number - - 1 4 08050896 ? ! 4 1[1] PastEnd
frame nothing_left - - 1 2 - ? ! 1 - Truncated
frame longer_than_a_read - - 1 20 12127a7a7a7a7a7a7a7a7a7a7a7a7a7a7a7a7a7aff 1 = 12127a7a7a7a7a7a7a7a7a7a7a7a7a7a7a7a7a7a
frame read_ends_between_records - - 1 18 080108010801080108010801080108010802ff 1 = 0802
frame refused_behind_a_read - - 1 19 12117a7a7a7a7a7a7a7a7a7a7a7a7a7a7a7affff ? ! 19 2[0] BadText
frame cut_behind_a_read - - 1 20 12127a7a7a7a7a7a7a7a7a7a7a7a7a7a7a7a ? ! 19 2[0] Truncated
";

/// The bytes, and the answer where no allocation is refused.
pub(crate) const ALLOCATIONS: &str = "
grow packed-and-single-elements - - 3206038e029ea7053001 = 3207038e029ea70501
grow messages-of-one-field-join - - 1a0208011a0312017a = 1a05080112017a
grow oneof-number-between-messages - - 42020801380542025802 = 42025802
grow wrong-end - - a3010801ac01 ! 4 20[0] WrongEnd
grow input-too-large 2 - 089601 ! 2 - InputTooLarge
grow many-fields - - 08960112017a1a0208012100000000000000803202030438054a050a016b10075000580162020803a3010801a401 = 08960112017a1a0208012100000000000000803202030438054a050a016b100750005801620408031200a3010801a401
grow nesting-1 - - 62060801120208016206080112025801 = 6206080112025801
grow nesting-2 - - 620a08011202080112025801 = 62080801120408015801
grow nesting-4 - - 4a070a016b10071801 = 4a050a016b1007
grow nesting-7 - - 4a030a01ff ! 4 9[0].1[0] BadText
grow occurrences-2 - - 1a0208011a031201ff ! 8 3[1].2[0] BadText
grow occurrences-3 - - 300132020396 ! 5 6[1] PastEnd
grow occurrences-4 - - 0801a30108010802ac01 ! 8 20[0] WrongEnd
";

/// The same of the type `Q`.
pub(crate) const CLOSED_ALLOCATIONS: &str = "
grow proto2-3 - - 1b08051c1b08061c = 1b08061c
grow proto2-5 - - 20072002 = 20022007
grow proto2-8 - - 2a0401070209 = 2a02010228072809
grow undeclared_run - - 2a06010702090801 = 2a03010201280728092808
grow undeclared_in_two_lists - - 2a0207012a020209 = 2a02010228072809
grow unknown_group_in_group - - 1b5b08015c1c = 1b5b08015c1c
grow second_group_cut - - 1b1c1b0896 ! 5 3[1].1[0] Truncated
grow wrong_end - - 1b24 ! 1 3[0] WrongEnd
";

/// The same of the type `R`.
pub(crate) const GROUP_ALLOCATIONS: &str = "
grow list_of_groups - - 0b10050c0b0c = 0b10050c0b0c
grow group_goes_on - - 1b08011c1b1c = 1b08011c
grow group_leaves_oneof - - 1b08011c2005 = 2005
grow list_in_group_goes_on - - 0b1b1b1c1c1b1b08011c1c0c = 0b1b1b1c1b08011c1c0c
grow undeclared_in_group - - 0b1b100710011c0c = 0b1b100110071c0c
grow group_in_entry - - 3206080112021b1c = 3206080112021b1c
grow message_in_group_goes_on - - 0b0a0220050a0428010b0c0c = 0b0a060b0c200528010c
grow second_of_each - - 0b0c0b1b1c1b1b1c1b0896 ! 11 1[1].3[1].3[1].1[0] Truncated
";

/// A piece, how often it comes, how often it is taken, and the answer.
pub(crate) const DEEP: &str =
    "repeat deep_groups - - 0b0b0b0b0b0b0b 142858 14 ! 100 1[0].1[0].1[0].1[0].1[0].1[0].1[0].1[0].1[0].1[0].1[0].1[0].1[0].1[0].1[0].1[0].1[0].1[0].1[0].1[0].1[0].1[0].1[0].1[0].1[0].1[0].1[0].1[0].1[0].1[0].1[0].1[0].1[0].1[0].1[0].1[0].1[0].1[0].1[0].1[0].1[0].1[0].1[0].1[0].1[0].1[0].1[0].1[0].1[0].1[0].1[0].1[0].1[0].1[0].1[0].1[0].1[0].1[0].1[0].1[0].1[0].1[0].1[0].1[0].1[0].1[0].1[0].1[0].1[0].1[0].1[0].1[0].1[0].1[0].1[0].1[0].1[0].1[0].1[0].1[0].1[0].1[0].1[0].1[0].1[0].1[0].1[0].1[0].1[0].1[0].1[0].1[0].1[0].1[0].1[0].1[0].1[0].1[0].1[0].1[0].1[0] TooDeep";

/// Takes as many allocations as `ONE_RECORD`.
pub(crate) const MANY_RECORDS: &str = "repeat many_records - - 0805 100000 100000 = 0805";

pub(crate) const ONE_RECORD: &str = "repeat one_record - - 0805 1 1 = 0805";

/// Bytes, of which each front is a message or cut short.
pub(crate) const FRONTS: &str =
    "fronts full_message - - 08960112017a1a0208012100000000000000803202030438054a050a016b10075000580162020803a3010801a401";

/// How many unknown records of falling numbers there are.
pub(crate) const FALLING: &str = "falling unknown_numbers - - 100000";

/// The front of a text, how many decoders it is fed to, which live at once, and the answer of each.
pub(crate) const ALIVE: &str = "alive long_texts - - 12ffffffff07 100000 ! 6 2[0] Truncated";

/// Records of one list in a row, in a message that is complete, of the type `T`.
pub(crate) const RUNS: &str = "
decode run - - 1a06300130023003 = 1a053203010203
decode run_of_one - - 1a0430010805 = 1a050805320101
decode run_broken_by_another_field - - 1a0a30013002080530033004 = 1a080805320401020304
decode run_broken_by_a_packed_record - - 1a0c300130023202030430053006 = 1a083206010203040506
decode run_behind_a_packed_record - - 1a083202010230033004 = 1a06320401020304
decode run_broken_by_an_unknown_record - - 1a0a30013002780530033004 = 1a083204010203047805
decode run_broken_by_bytes - - 1a0a30013002320030033004 = 1a06320401020304
decode run_with_a_longer_tag - - 1a073001b000023003 = 1a053203010203
decode run_with_longer_numbers - - 1a083081003082003003 = 1a053203010203
decode run_goes_on - - 1a04300130021a0430033004 = 1a06320401020304
decode run_of_negative_numbers - - 1a1630ffffffffffffffffff0130ffffffffffffffffff01 = 1a163214ffffffffffffffffff01ffffffffffffffffff01
decode run_cut_at_a_number - - 1a063001300230 ! 7 3[0].6[2] Truncated
decode run_cut_in_a_number - - 1a073001300230 ! 7 3[0].6[2] Truncated
decode run_cut_at_a_tag - - 1a0630013002 ! 6 3[0] Truncated
decode run_ends_at_a_number - - 1a053001300230 ! 7 3[0].6[2] PastEnd
decode run_ends_in_a_number - - 1a0630013002309601 ! 7 3[0].6[2] PastEnd
decode run_ends_in_a_long_number - - 1a0f3001300230ffffffffffffffffffff ! 7 3[0].6[2] VarintTooLong
";

/// The same of a closed enum, in a map of the type `R`.
pub(crate) const CLOSED_RUNS: &str = "
decode declared_run - - 320a08011206280128022801 = 320a08011206280128022801
decode undeclared_in_run - - 320a08011206280128092802 = 320a08011206280128022809
decode undeclared_before_run - - 320a08011206280928012802 = 320a08011206280128022809
decode undeclared_behind_run - - 320a08011206280128022809 = 320a08011206280128022809
decode undeclared_between_runs - - 320e0801120a28012802280928022801 = 320e0801120a28012802280228012809
decode undeclared_alone - - 320a08011206280728082809 = 320a08011206280728082809
";

/// Messages in a list and runs of numbers of known sizes, of the type `S`.
pub(crate) const LISTS: &str = "
decode messages_in_a_list - - 0a020a000a00 = 0a020a000a00
decode messages_with_lists - - 0a0e0a0515010000000a051502000000 = 0a0e0a0515010000000a051502000000
decode messages_broken_by_numbers - - 0a000a0515010000000a0015020000000a00 = 0a000a0515010000000a000a001502000000
decode fault_in_the_second_message - - 0a000a020f00 ! 4 1[1] BadType
decode fault_in_a_message_of_the_second - - 0a000a040a020f00 ! 6 1[1].1[0] BadType
decode second_message_cut - - 0a000a051501 ! 6 1[1].2[0] Truncated
decode message_too_deep - 1 0a000a020a00 ! 4 1[1].1[0] TooDeep
decode run_of_four_bytes - - 0a0f150100000015020000001503000000 = 0a0f150100000015020000001503000000
decode run_of_eight_bytes - - 0a1219000000000000000019000000000000f03f = 0a1219000000000000000019000000000000f03f
decode run_of_four_bytes_broken - - 0a13150100000019000000000000f03f1502000000 = 0a131501000000150200000019000000000000f03f
decode run_of_four_bytes_and_packed - - 0a1015010000001204020000001503000000 = 0a0f150100000015020000001503000000
decode run_of_four_bytes_cut - - 0a0a150100000015020000 ! 11 1[0].2[1] Truncated
decode run_of_four_bytes_ends_early - - 0a0915010000001502000000 ! 8 1[0].2[1] PastEnd
";

/// Sixteen and more map entries in a row, in an input that is complete, of the type `T`.
pub(crate) const MAPS: &str = "
decode run_in_message - - 1a88014a060a02626210014a060a02616110024a060a02636310034a060a02626210044a060a02616110054a060a02636310064a060a02626210074a060a02616110084a060a02636310094a060a026262100a4a060a026161100b4a060a026363100c4a060a026262100d4a060a026161100e4a060a026363100f4a060a02626210104a060a0261611011 = 1a184a060a02616110114a060a02626210104a060a026363100f
decode run_two_levels_below - - 1a8d011a88014a060a02626210014a060a02616110024a060a02636310034a060a02626210044a060a02616110054a060a02636310064a060a02626210074a060a02616110084a060a02636310094a060a026262100a4a060a026161100b4a060a026363100c4a060a026262100d4a060a026161100e4a060a026363100f4a060a02626210104a060a02616110110805 = 1a1c08051a184a060a02616110114a060a02626210104a060a026363100f
decode run_in_value - - 628d0108011288014a060a02626210014a060a02616110024a060a02636310034a060a02626210044a060a02616110054a060a02636310064a060a02626210074a060a02616110084a060a02636310094a060a026262100a4a060a026161100b4a060a026363100c4a060a026262100d4a060a026161100e4a060a026363100f4a060a02626210104a060a0261611011 = 621c080112184a060a02616110114a060a02626210104a060a026363100f
decode run_goes_on_behind_another_record - - 1a9a014a060a02626210014a060a02616110024a060a02636310034a060a02626210044a060a02616110054a060a02636310064a060a02626210074a060a02616110084a060a02636310094a060a026262100a4a060a026161100b4a060a026363100c4a060a026262100d4a060a026161100e4a060a026363100f4a060a02626210104a060a026161101108054a060a02616110214a060a0264641022 = 1a2208054a060a02616110214a060a02626210104a060a026363100f4a060a0264641022
decode short_entries_around_run - - 1a9e014a050a016110074a060a02626210014a060a02616110024a060a02636310034a060a02626210044a060a02616110054a060a02636310064a060a02626210074a060a02616110084a060a02636310094a060a026262100a4a060a026161100b4a060a026363100c4a060a026262100d4a060a026161100e4a060a026363100f4a060a02626210104a060a02616110114a050a016110074a060a0261611002 = 1a1f4a050a016110074a060a02616110024a060a02626210104a060a026363100f
decode short_entry_in_run - - 1a8f024a060a02626210014a060a02616110024a060a02636310034a060a02626210044a060a02616110054a060a02636310064a060a02626210074a060a02616110084a060a02636310094a060a026262100a4a060a026161100b4a060a026363100c4a060a026262100d4a060a026161100e4a060a026363100f4a060a02626210104a050a016110074a060a02626210014a060a02616110024a060a02636310034a060a02626210044a060a02616110054a060a02636310064a060a02626210074a060a02616110084a060a02636310094a060a026262100a4a060a026161100b4a060a026363100c4a060a026262100d4a060a026161100e4a060a026363100f4a060a02626210104a060a0261611011 = 1a1f4a050a016110074a060a02616110114a060a02626210104a060a026363100f
decode missing_keys_and_values_in_run - - 1a98014a060a02626210014a060a02616110024a060a02636310034a060a02626210044a060a02616110054a060a02636310064a060a02626210074a060a02616110084a061081808080004a060a04646464644a060a02636310094a060a026262100a4a060a026161100b4a060a026363100c4a060a026262100d4a060a026161100e4a060a026363100f4a060a02626210104a060a0261611011 = 1a284a040a0010014a060a02616110114a060a02626210104a060a026363100f4a080a04646464641000
decode bad_text_in_run - - 1aa0014a060a02626210014a060a02616110024a060a02636310034a060a02626210044a060a02616110054a060a02636310064a060a02626210074a060a02616110084a060a02636310094a060a0261ff10014a060a026161100b4a060a026363100c4a060a026262100d4a060a026161100e4a060a026363100f4a060a02626210104a060a02616110114a060a02636310124a060a02626210134a060a0261611014 ! 80 3[0].9[9].1[0] BadText
decode past_end_in_run - - 1aa0014a060a02626210014a060a02616110024a060a02636310034a060a02626210044a060a02616110054a060a02636310064a060a02626210074a060a02616110084a060a02636310094a060a02616110964a060a026161100b4a060a026363100c4a060a026262100d4a060a026161100e4a060a026363100f4a060a02626210104a060a02616110114a060a02636310124a060a02626210134a060a0261611014 ! 82 3[0].9[9].2[0] PastEnd
decode bad_type_in_run - - 1aa0014a060a02626210014a060a02616110024a060a02636310034a060a02626210044a060a02616110054a060a02636310064a060a02626210074a060a02616110084a060a02636310094a060a026262100a4a060a026161100b4a060a026363100c4a060a026262100d4a060a026161100e4a060a026363100f4a060a02626210104a060a02616110114a060a02636310124a060a02626210134a060a0261610f00 ! 161 3[0].9[19] BadType
decode first_of_run_refused - - 1aa0014a060a0261ff10014a060a02616110024a060a02636310034a060a02626210044a060a02616110054a060a02636310064a060a02626210074a060a02616110084a060a02636310094a060a026262100a4a060a026161100b4a060a026363100c4a060a026262100d4a060a026161100e4a060a026363100f4a060a02626210104a060a02616110114a060a02636310124a060a02626210134a060a0261611014 ! 8 3[0].9[0].1[0] BadText
decode bad_text_in_run_in_value - - 62a501080112a0014a060a02626210014a060a02616110024a060a02636310034a060a02626210044a060a02616110054a060a02636310064a060a02626210074a060a02616110084a060a02636310094a060a0261ff10014a060a026161100b4a060a026363100c4a060a026262100d4a060a026161100e4a060a026363100f4a060a02626210104a060a02616110114a060a02636310124a060a02626210134a060a0261611014 ! 85 12[0].2[0].9[9].1[0] BadText
decode entry_past_the_end_of_its_message - - 1a8e014a060a02626210014a060a02616110024a060a02636310034a060a02626210044a060a02616110054a060a02636310064a060a02626210074a060a02616110084a060a02636310094a060a026262100a4a060a026161100b4a060a026363100c4a060a026262100d4a060a026161100e4a060a026363100f4a060a02626210104a060a02616110114a060a0261611001 ! 140 3[0].9[17] PastEnd
decode refused_value_in_run - - 62060801120208056206080212020805620608031202080562060804120208056206080512020805620608061202080562060807120208056206080812020f0062060809120208056206080a120208056206080b120208056206080c120208056206080d120208056206080e120208056206080f1202080562060810120208056206081112020805620608121202080562060813120208056206081412020805 ! 62 12[7].2[0] BadType
decode refused_value_in_run_in_message - - 1aa00162060801120208056206080212020805620608031202080562060804120208056206080512020805620608061202080562060807120208056206080812020f0062060809120208056206080a120208056206080b120208056206080c120208056206080d120208056206080e120208056206080f1202080562060810120208056206081112020805620608121202080562060813120208056206081412020805 ! 65 3[0].12[7].2[0] BadType
decode too_deep_in_run_in_message - 2 1aa00162060801120208056206080212020805620608031202080562060804120208056206080512020805620608061202080562060807120208056206080812021a0062060809120208056206080a120208056206080b120208056206080c120208056206080d120208056206080e120208056206080f1202080562060810120208056206081112020805620608121202080562060813120208056206081412020805 ! 65 3[0].12[7].2[0].3[0] TooDeep
decode too_deep_for_run - 1 1aa0016206080112020805620608021202080562060803120208056206080412020805620608051202080562060806120208056206080712020805620608081202080562060809120208056206080a120208056206080b120208056206080c120208056206080d120208056206080e120208056206080f1202080562060810120208056206081112020805620608121202080562060813120208056206081412020805 ! 3 3[0].12[0] TooDeep
decode deep_enough_for_run - 2 1aa0016206080112020805620608021202080562060803120208056206080412020805620608051202080562060806120208056206080712020805620608081202080562060809120208056206080a120208056206080b120208056206080c120208056206080d120208056206080e120208056206080f1202080562060810120208056206081112020805620608121202080562060813120208056206081412020805 = 1aa0016206080112020805620608021202080562060803120208056206080412020805620608051202080562060806120208056206080712020805620608081202080562060809120208056206080a120208056206080b120208056206080c120208056206080d120208056206080e120208056206080f1202080562060810120208056206081112020805620608121202080562060813120208056206081412020805
";

/// The same in groups, of the type `R`.
pub(crate) const MAPS_IN_GROUPS: &str = "
decode run_in_group - - 0b1b3206088100108100320608820010820032060883001083003206088100108400320608820010850032060883001086003206088100108700320608820010880032060883001089003206088100108a003206088200108b003206088300108c003206088100108d003206088200108e003206088300108f00320608810010900032060882001091001c0c = 0b1b32040801101032040802101132040803100f1c0c
decode refused_in_run_in_group - - 0b1b32060881001081003206088200108200320608830010830032060881001084003206088200108500320608830010860032060881001087003206088200108800320608830010890032060881001081803206088200108b003206088300108c003206088100108d003206088200108e003206088300108f00320608810010900032060882001091003206088100108100320608820010820032060883001083001c0c ! 80 1[0].3[0].6[9].2[0] PastEnd
";

/// How many levels of maps there are, in each the bytes of entries before the one that holds the next level, the innermost message,
/// and the answer.
pub(crate) const MAPS_IN_MAPS: &str = "
nest refused_innermost - - 40 6206080112020805620608021202080562060803120208056206080412020805620608051202080562060806120208056206080712020805620608081202080562060809120208056206080a120208056206080b120208056206080c120208056206080d120208056206080e120208056206080f120208056206081012020805620608111202080562060812120208056206081312020805 0f00 ! 6398 12[19].2[0].12[19].2[0].12[19].2[0].12[19].2[0].12[19].2[0].12[19].2[0].12[19].2[0].12[19].2[0].12[19].2[0].12[19].2[0].12[19].2[0].12[19].2[0].12[19].2[0].12[19].2[0].12[19].2[0].12[19].2[0].12[19].2[0].12[19].2[0].12[19].2[0].12[19].2[0].12[19].2[0].12[19].2[0].12[19].2[0].12[19].2[0].12[19].2[0].12[19].2[0].12[19].2[0].12[19].2[0].12[19].2[0].12[19].2[0].12[19].2[0].12[19].2[0].12[19].2[0].12[19].2[0].12[19].2[0].12[19].2[0].12[19].2[0].12[19].2[0].12[19].2[0].12[19].2[0] BadType
";
