// Lists of lines, most of them drawn once, each for a topic of its own.

/// A Failover subscription, mostly.
pub(super) const FAILOVER: &str = "producer p -
publish 1 0 e aGk= 1000
stored
publish 1 1 c aGk= 1000
stored
subscribe failover Failover 2 pull 400 0 1 - Latest 60000-65535,0-20000
permit 1 5
publish 1 2 e aGk= 300
publish 1 3 - aGk= 554
stored
ack 1 CAEQAQ==
ack 0 CAEQAQ==
ack 0 CAEQAQ==
ack 0 CAEQAQ==
publish 1 4 c aGk= 933
stored
publish 1 5 e aGk= 1132
stored
publish 1 6 c aGk= 1182
stored
dispatch failover 482
producer p -
publish 1 4 d aGk= 580
stored
subscribe failover Failover 2 push:100 400 0 1 - Earliest
collect 1
collect 2
seektime failover 0
stats failover
subscribe failover Failover 2 pull 200 300 0 - Earliest
permit 3 5
dispatch failover 1463
dispatch failover 1463
nack 3 CAAQAA== 1700
nack 2 CAAQAA== 1700
nack 1 CAAQAA== 1700
nack 0 CAAQAA== 1700
dispatch none 1952
progress
dispatch failover 2304
dispatch failover 2304
dispatch failover 3582
nack 3 CAMQAA== 3582
nack 2 CAMQAA== 3582
nack 1 CAMQAA== 3582
nack 0 CAMQAA== 3582
tick failover 3582
tick failover 3582
tick failover 3582
dispatch failover 3582
nack 3 CAMQAA== 3582
nack 2 CAMQAA== 3582
collect 1
collect 2
nack 1 CAMQAA== 3582
nack 0 CAMQAA== 3582
tick failover 3582
tick failover 3582
tick failover 3582
dispatch failover 3582
nack 3 CAMQAA== 3582
nack 2 CAMQAA== 3582
nack 1 CAMQAA== 3582
nack 0 CAMQAA== 3582
tick failover 3582
tick failover 3582
tick failover 3582
stored
deadnext failover
deaddone failover 0
subscribe failover Failover 1 push:100 400 0 2 - Earliest
publish 1 5 b aGk= 3819
stored
subscribe failover Exclusive 1 push:100 400 0 0 - Earliest 0-65535
publish 1 9 c aGk= 4110
ackupto 5 CAAQAA==
ackupto 4 CAAQAA==
ackupto 3 CAAQAA==
ackupto 2 CAAQAA==
collect 1
collect 2
dispatch failover 4696
nack 5 CAEQAQ== 4696
nack 4 CAEQAQ== 4696
nack 3 CAEQAQ== 4696
nack 2 CAEQAQ== 4696
tick failover 4696
tick failover 4696
tick failover 4696
dispatch failover 4696
nack 5 CAEQAQ== 4696
nack 4 CAEQAQ== 4696
nack 3 CAEQAQ== 4696
nack 2 CAEQAQ== 4696
tick failover 4696
tick failover 4696
tick failover 4696
dispatch failover 4696
nack 5 CAEQAQ== 4696
nack 4 CAEQAQ== 4696
nack 3 CAEQAQ== 4696
nack 2 CAEQAQ== 4696
tick failover 4696
tick failover 4696
tick failover 4696
stored
collect 1
collect 2
deadnext failover
deaddone failover 1
dispatch failover 5894
nack 5 CAAQAA== 5894
nack 4 CAAQAA== 5894
nack 3 CAAQAA== 5894
nack 2 CAAQAA== 5894
tick failover 5894
tick failover 5894
tick failover 5894
dispatch failover 5894
nack 5 CAAQAA== 5894
nack 4 CAAQAA== 5894
nack 3 CAAQAA== 5894
nack 2 CAAQAA== 5894
tick failover 5894
tick failover 5894
tick failover 5894
dispatch failover 5894
nack 5 CAAQAA== 5894
nack 4 CAAQAA== 5894
nack 3 CAAQAA== 5894
nack 2 CAAQAA== 5894
tick failover 5894
tick failover 5894
collect 1
collect 2
tick failover 5894
stored
deadnext failover
deaddone failover 2
";

/// An Exclusive one.
pub(super) const EXCLUSIVE: &str = "producer p -
publish 1 0 d aGk= 1000
stored
publish 1 1 c aGk= 1000
stored
subscribe exclusive Shared 0 push:100 400 0 1 - Earliest
subscribe exclusive Exclusive 2 push:100 200 300 1 - Earliest
producer q 1
dispatch exclusive 2469
nack 2 CAEQAg== 2469
nack 1 CAEQAg== 2469
nack 0 CAEQAg== 2469
nack 0 CAEQAg== 2469
tick exclusive 2469
tick exclusive 2469
tick exclusive 2469
dispatch exclusive 2469
nack 2 CAEQAg== 2469
nack 1 CAEQAg== 2469
nack 0 CAEQAg== 2469
nack 0 CAEQAg== 2469
tick exclusive 2469
tick exclusive 2469
tick exclusive 2469
dispatch exclusive 2469
collect 1
collect 2
nack 2 CAEQAg== 2469
nack 1 CAEQAg== 2469
nack 0 CAEQAg== 2469
nack 0 CAEQAg== 2469
tick exclusive 2469
tick exclusive 2469
tick exclusive 2469
stored
deadnext exclusive
deaddone exclusive 0
dispatch exclusive 2540
subscribe exclusive Exclusive 0 pull 400 0 2 - Earliest
permit 3 5
producer p -
publish 1 2 - aGk= 2203
publish 2 3 a aGk= 2360
stored
dispatch exclusive 2549
dispatch exclusive 2549
dispatch exclusive 2549
subscribe exclusive Key_Shared 1 push:1 200 0 0 - Earliest
trim 0 253402300799999 18446744073709551615
seektime exclusive 1009
leave 1
leave 0
collect 1
collect 2
publish 1 4 d aGk= 3363
stored
producer - -
subscribe exclusive Exclusive 2 push:2 400 0 0 - Latest
nack 5 CAIQAQ== 3674
nack 4 CAIQAQ== 3674
nack 3 CAIQAQ== 3674
nack 2 CAIQAQ== 3674
producer p -
dispatch exclusive 3787
dispatch exclusive 3787
dispatch exclusive 3787
dispatch exclusive 4841
nack 5 CAEQAA== 4841
nack 4 CAEQAA== 4841
nack 3 CAEQAA== 4841
nack 2 CAEQAA== 4841
tick exclusive 4841
tick exclusive 4841
tick exclusive 4841
dispatch exclusive 4841
nack 5 CAEQAA== 4841
nack 4 CAEQAA== 4841
nack 3 CAEQAA== 4841
nack 2 CAEQAA== 4841
collect 1
collect 2
tick exclusive 4841
tick exclusive 4841
tick exclusive 4841
dispatch exclusive 4841
nack 5 CAEQAA== 4841
nack 4 CAEQAA== 4841
nack 3 CAEQAA== 4841
nack 2 CAEQAA== 4841
tick exclusive 4841
tick exclusive 4841
tick exclusive 4841
stored
deadnext exclusive
deaddone exclusive 0
skip exclusive 2
nack 5 CAEQAQ== 5065
nack 4 CAEQAQ== 5065
nack 3 CAEQAQ== 5065
nack 2 CAEQAQ== 5065
tick exclusive 5123
tick exclusive 5123
tick exclusive 5123
stored
deadnext exclusive
deaddone exclusive 0
collect 1
collect 2
publish 1 5 e aGk= 5227
stored
nack 5 CAIQAg== 5373
nack 4 CAIQAg== 5373
nack 3 CAIQAg== 5373
nack 2 CAIQAg== 5373
";

/// A Shared one.
pub(super) const SHARED: &str = "producer p -
publish 1 0 e aGk= 1000
stored
publish 1 1 c aGk= 1000
stored
subscribe shared Shared 2 pull 400 0 1 - Latest 60000-65535,0-20000
permit 1 5
publish 1 2 e aGk= 300
publish 1 3 - aGk= 554
stored
ack 1 CAEQAQ==
ack 0 CAEQAQ==
ack 0 CAEQAQ==
ack 0 CAEQAQ==
publish 1 4 c aGk= 933
stored
publish 1 5 e aGk= 1132
stored
publish 1 6 c aGk= 1182
stored
dispatch shared 482
producer p -
publish 1 4 d aGk= 580
stored
subscribe shared Shared 2 push:100 400 0 1 - Earliest
collect 1
collect 2
seektime shared 0
stats shared
subscribe shared Shared 2 pull 200 300 0 - Earliest
permit 3 5
dispatch shared 1463
dispatch shared 1463
nack 3 CAAQAA== 1700
nack 2 CAAQAA== 1700
nack 1 CAAQAA== 1700
nack 0 CAAQAA== 1700
dispatch none 1952
progress
dispatch shared 2304
dispatch shared 2304
dispatch shared 3582
nack 3 CAMQAA== 3582
nack 2 CAMQAA== 3582
nack 1 CAMQAA== 3582
nack 0 CAMQAA== 3582
tick shared 3582
tick shared 3582
tick shared 3582
dispatch shared 3582
nack 3 CAMQAA== 3582
nack 2 CAMQAA== 3582
collect 1
collect 2
nack 1 CAMQAA== 3582
nack 0 CAMQAA== 3582
tick shared 3582
tick shared 3582
tick shared 3582
dispatch shared 3582
nack 3 CAMQAA== 3582
nack 2 CAMQAA== 3582
nack 1 CAMQAA== 3582
nack 0 CAMQAA== 3582
tick shared 3582
tick shared 3582
tick shared 3582
stored
deadnext shared
deaddone shared 0
subscribe shared Shared 1 push:100 400 0 2 - Earliest
publish 1 5 b aGk= 3819
stored
subscribe shared Exclusive 1 push:100 400 0 0 - Earliest 0-65535
publish 1 9 c aGk= 4110
ackupto 5 CAAQAA==
ackupto 4 CAAQAA==
ackupto 3 CAAQAA==
ackupto 2 CAAQAA==
collect 1
collect 2
dispatch shared 4696
nack 5 CAEQAQ== 4696
nack 4 CAEQAQ== 4696
nack 3 CAEQAQ== 4696
nack 2 CAEQAQ== 4696
tick shared 4696
tick shared 4696
tick shared 4696
dispatch shared 4696
nack 5 CAEQAQ== 4696
nack 4 CAEQAQ== 4696
nack 3 CAEQAQ== 4696
nack 2 CAEQAQ== 4696
tick shared 4696
tick shared 4696
tick shared 4696
dispatch shared 4696
nack 5 CAEQAQ== 4696
nack 4 CAEQAQ== 4696
nack 3 CAEQAQ== 4696
nack 2 CAEQAQ== 4696
tick shared 4696
tick shared 4696
tick shared 4696
stored
collect 1
collect 2
deadnext shared
deaddone shared 1
dispatch shared 5894
nack 5 CAAQAA== 5894
nack 4 CAAQAA== 5894
nack 3 CAAQAA== 5894
nack 2 CAAQAA== 5894
tick shared 5894
tick shared 5894
tick shared 5894
dispatch shared 5894
nack 5 CAAQAA== 5894
nack 4 CAAQAA== 5894
nack 3 CAAQAA== 5894
nack 2 CAAQAA== 5894
tick shared 5894
tick shared 5894
tick shared 5894
dispatch shared 5894
nack 5 CAAQAA== 5894
nack 4 CAAQAA== 5894
nack 3 CAAQAA== 5894
nack 2 CAAQAA== 5894
tick shared 5894
tick shared 5894
collect 1
collect 2
tick shared 5894
stored
deadnext shared
deaddone shared 2
";

/// A Key_Shared one, in which a hash drains; then one whose consumers say which hashes they take.
pub(super) const KEYED: &str = "producer p -
publish 1 0 test aGk= 1000
publish 1 1 Hello,%20world! aGk= 1000
stored
subscribe s Key_Shared 0 push:10 0 60000 0 - Earliest
dispatch s 1000
dispatch s 1000
subscribe s Key_Shared 0 push:10 0 60000 0 - Earliest
publish 1 2 Hello,%20world! aGk= 1001
stored
dispatch s 1001
nack 1 CAAQAQ== 1001
dispatch s 1001
tick s 61001
dispatch s 61001
dispatch s 61001
ackupto 2 CAAQAg==
collect 1
collect 2
progress
subscribe s Key_Shared 0 push:10 100 60000 1 - Earliest
publish 1 3 test aGk= 61002
publish 1 4 a aGk= 61002
stored
progress
dispatch s 62000
dispatch s 62000
dispatch s 62000
leave 1
dispatch s 62000
dispatch s 62000
collect 3
stats s
tick s 62200
tick s 62200
dispatch s 62200
tick s 62400
deadnext s
stored
deadnext s
deaddone s 0
stats s
seek s CAAQAQ==
dispatch s 62400
collect 2
collect 3
skip s 1
restart
producer p -
progress
publish 1 5 a aGk= 63000
publish 1 6 test aGk= 63000
subscribe s Key_Shared 0 push:10 0 0 0 - Earliest 0-32767
subscribe s Key_Shared 0 push:10 0 0 0 - Earliest 30000-40000
subscribe s Key_Shared 0 push:10 0 0 0 - Earliest
subscribe s Key_Shared 1 pull 0 0 0 - Earliest 50000-65535
permit 2 3
stored
dispatch s 63000
dispatch s 63000
dispatch s 63000
dispatch s 63000
collect 1
collect 2
progress
leave 2
dispatch s 63000
ackupto 1 CAIQAA==
ack 1 CAIQAA==
seektime s 63000
dispatch s 63000
leave 1
dropsub s
subscribe s Shared 0 push:10 0 0 0 - Latest
stats s
progress
restart
stats s
";

/// A log of many messages, the first of which go.
pub(super) const FILLED: &str = "producer p -
producer q 1
producer - -
subscribe shared Shared 0 push:100 0 0 1 - Earliest
subscribe keyed Key_Shared 0 push:100 200 0 1 - Earliest
publish 2 0 d aGk= 1001
publish 2 1 c aGk= 1002
publish 3 2 d aGk= 1003
publish 2 3 - aGk= 1003
publish 2 4 b aGk= 1005
publish 3 5 e aGk= 1005
publish 2 6 b aGk= 1006
publish 2 7 d aGk= 1007
publish 2 8 - aGk= 1008
publish 1 9 e aGk= 1010
publish 3 7 b aGk= 1011
publish 3 11 e aGk= 1011
publish 1 12 a aGk= 1011
publish 3 13 - aGk= 1011
publish 2 14 - aGk= 1011
publish 3 15 e aGk= 1012
publish 3 16 d aGk= 1012
publish 3 17 c aGk= 1012
publish 3 18 b aGk= 1012
publish 1 19 a aGk= 1014
collect 1
collect 2
publish 1 18 c aGk= 1014
publish 1 21 a aGk= 1014
publish 1 22 e aGk= 1014
publish 2 23 a aGk= 1016
publish 3 24 d aGk= 1018
publish 2 25 e aGk= 1019
publish 3 26 - aGk= 1021
publish 3 27 c aGk= 1022
publish 3 28 a aGk= 1024
publish 1 29 - aGk= 1024
publish 1 30 a aGk= 1026
publish 2 31 a aGk= 1027
publish 1 32 - aGk= 1029
publish 3 33 d aGk= 1029
publish 1 34 - aGk= 1031
publish 1 35 a aGk= 1032
publish 3 36 c aGk= 1032
publish 3 37 d aGk= 1032
publish 3 38 b aGk= 1033
publish 1 39 e aGk= 1033
publish 2 40 a aGk= 1034
publish 3 41 - aGk= 1034
publish 1 42 a aGk= 1036
publish 2 43 d aGk= 1037
publish 3 44 - aGk= 1037
collect 1
collect 2
publish 1 45 b aGk= 1039
publish 2 46 d aGk= 1041
publish 3 47 - aGk= 1042
publish 3 48 d aGk= 1043
publish 2 49 c aGk= 1045
publish 2 50 d aGk= 1047
publish 1 51 e aGk= 1049
publish 2 50 a aGk= 1049
publish 2 53 d aGk= 1049
publish 3 54 d aGk= 1050
publish 3 55 e aGk= 1052
publish 2 56 e aGk= 1053
publish 1 57 e aGk= 1053
publish 1 58 a aGk= 1054
publish 2 59 e aGk= 1056
publish 3 60 - aGk= 1058
publish 3 61 e aGk= 1059
publish 1 62 c aGk= 1061
publish 2 63 c aGk= 1061
publish 2 64 c aGk= 1063
publish 2 65 - aGk= 1064
publish 1 66 e aGk= 1065
publish 1 67 e aGk= 1065
publish 2 67 - aGk= 1066
publish 1 69 a aGk= 1068
collect 1
collect 2
publish 3 70 b aGk= 1068
publish 3 71 - aGk= 1069
publish 2 72 - aGk= 1070
publish 2 73 b aGk= 1071
publish 3 74 - aGk= 1071
publish 2 75 - aGk= 1071
publish 3 76 d aGk= 1071
publish 2 74 e aGk= 1072
publish 2 78 b aGk= 1074
publish 1 79 c aGk= 1076
publish 2 79 a aGk= 1078
publish 2 81 b aGk= 1079
publish 1 82 d aGk= 1081
publish 1 83 a aGk= 1081
publish 3 84 b aGk= 1081
publish 3 85 b aGk= 1082
publish 2 86 - aGk= 1082
publish 1 87 b aGk= 1083
publish 2 88 c aGk= 1084
publish 1 89 c aGk= 1084
stored
publish 1 90 - aGk= 1085
publish 2 91 - aGk= 1087
publish 2 92 a aGk= 1088
publish 3 93 e aGk= 1090
collect 1
collect 2
publish 1 94 a aGk= 1090
publish 1 92 - aGk= 1092
publish 2 96 c aGk= 1092
publish 3 97 c aGk= 1093
publish 2 98 b aGk= 1093
publish 1 99 a aGk= 1095
publish 1 100 e aGk= 1096
publish 3 101 e aGk= 1096
publish 1 102 c aGk= 1096
publish 1 102 d aGk= 1097
publish 1 104 c aGk= 1097
publish 2 105 - aGk= 1098
publish 2 106 d aGk= 1100
publish 3 107 d aGk= 1101
publish 3 108 c aGk= 1102
publish 3 109 d aGk= 1103
publish 1 108 e aGk= 1105
publish 2 111 - aGk= 1107
publish 1 112 d aGk= 1109
publish 2 113 e aGk= 1109
publish 2 114 - aGk= 1111
publish 1 115 a aGk= 1113
publish 1 116 - aGk= 1113
publish 2 117 a aGk= 1114
publish 2 118 d aGk= 1116
collect 1
collect 2
publish 3 119 e aGk= 1117
publish 3 120 e aGk= 1119
publish 1 121 d aGk= 1120
publish 2 122 c aGk= 1122
publish 3 123 - aGk= 1124
publish 1 124 b aGk= 1126
publish 3 125 b aGk= 1128
publish 2 126 b aGk= 1128
publish 2 127 - aGk= 1129
publish 3 128 a aGk= 1129
publish 3 129 - aGk= 1130
publish 2 130 a aGk= 1130
publish 3 131 e aGk= 1131
publish 1 132 c aGk= 1133
publish 3 133 c aGk= 1133
publish 1 134 c aGk= 1134
stored
publish 1 135 - aGk= 434
stored
trim 0 404 18446744073709551615
progress
dispatch shared 497
dispatch keyed 497
dispatch keyed 497
seek keyed earliest
collect 1
collect 2
restart
producer p -
subscribe shared Shared 0 push:100 0 0 1 - Earliest
subscribe keyed Key_Shared 0 push:100 200 0 1 - Earliest
publish 2 136 e aGk= 762
publish 1 134 b aGk= 762
publish 3 138 a aGk= 762
publish 3 139 d aGk= 762
publish 1 140 c aGk= 763
publish 2 141 - aGk= 765
publish 1 142 c aGk= 766
publish 3 140 c aGk= 766
publish 2 141 b aGk= 768
publish 2 145 b aGk= 770
publish 1 146 e aGk= 770
publish 2 147 a aGk= 770
publish 1 148 - aGk= 770
publish 1 149 - aGk= 772
publish 3 150 e aGk= 772
publish 2 151 e aGk= 772
publish 3 152 a aGk= 772
publish 2 153 c aGk= 772
publish 3 154 a aGk= 773
publish 1 155 b aGk= 773
publish 2 156 d aGk= 774
collect 1
collect 2
publish 2 157 d aGk= 776
publish 1 158 a aGk= 776
publish 1 159 a aGk= 777
publish 3 160 a aGk= 778
publish 2 161 c aGk= 778
publish 1 162 d aGk= 780
publish 2 163 e aGk= 780
publish 1 164 b aGk= 780
publish 2 165 d aGk= 782
publish 2 166 - aGk= 783
publish 2 167 e aGk= 783
publish 1 168 c aGk= 785
publish 2 169 c aGk= 785
publish 2 170 c aGk= 785
publish 1 171 b aGk= 785
publish 3 172 e aGk= 785
publish 2 173 c aGk= 786
publish 1 174 c aGk= 787
publish 3 175 b aGk= 788
publish 3 176 c aGk= 789
publish 2 174 d aGk= 789
publish 1 178 b aGk= 790
publish 3 179 d aGk= 790
publish 1 180 e aGk= 792
stored
collect 1
collect 2
dispatch keyed 2046
nack 2 CAQQAQ== 2046
nack 1 CAQQAQ== 2046
nack 0 CAQQAQ== 2046
nack 0 CAQQAQ== 2046
tick keyed 2046
tick keyed 2046
tick keyed 2046
dispatch keyed 2046
nack 2 CAQQAQ== 2046
nack 1 CAQQAQ== 2046
nack 0 CAQQAQ== 2046
nack 0 CAQQAQ== 2046
tick keyed 2046
tick keyed 2046
tick keyed 2046
dispatch keyed 2046
nack 2 CAQQAQ== 2046
nack 1 CAQQAQ== 2046
nack 0 CAQQAQ== 2046
nack 0 CAQQAQ== 2046
tick keyed 2046
tick keyed 2046
tick keyed 2046
stored
collect 1
collect 2
deadnext keyed
deaddone keyed 1
publish 2 179 c aGk= 1346
stored
dispatch keyed 1527
dispatch keyed 1527
dispatch keyed 1527
seek shared latest
seek keyed latest
skip failover 18
skip exclusive 18
trim 135 253402300799999 195
seek shared latest
skip keyed 74
seek failover CB4QAg==
skip exclusive 74
trim 0 1317 18446744073709551615
subscribe keyed Shared 2 push:100 600 0 2 - Earliest
";
